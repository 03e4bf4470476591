ghost use Rattle.std.specs.Prelude.{◌≡◌, replicate};
ghost use Rattle.planner.specs.Fitted.{Fitted};

use crate::checks::MEMBERS;

// A set of members is a word of 64 bits, member k at place k. What is known of each member stands in a table of 64, one
// for each place of a word, since there is no heap.
#[derive(Drop)]
pub(crate) struct Words {
    pub(crate) n: usize,
    pub(crate) permitted: [u64; MEMBERS],
    pub(crate) givers: u64,
    pub(crate) takers: u64,
    pub(crate) holders: [u64; MEMBERS],
    ghost fitted: { Fitted n permitted givers holders },
}

// For each receiver that a search has seen, the giver from whom it saw it, and for each giver that it has reached back,
// the receiver through whom it did. Members are bytes here, eight times less to clear for each search; `as` leads to
// them, as it is proved that no bit is lost, and `try_from` would answer a Result to take apart.
#[derive(Drop)]
pub(crate) struct Marks {
    pub(crate) from: [u8; MEMBERS],
    pub(crate) via: [u8; MEMBERS],
}

impl Marks {
    // Nobody marked.
    pub(crate) fn none() -> Marks
        ensures { result ≡ record { from = replicate 64 0; via = replicate 64 0 } }
    {
        Marks {
            from: [0; MEMBERS],
            via: [0; MEMBERS],
        }
    }
}

// Where a search stands. The queue has 64 places, since nothing is put on a heap.
#[derive(Drop)]
pub(crate) struct Seek {
    pub(crate) queue: [u8; MEMBERS],
    pub(crate) head: usize,
    pub(crate) tail: usize,
    pub(crate) reached: u64,
    pub(crate) seen: u64,
    pub(crate) marks: Marks,
}

// A giver and a receiver permitted from it.
#[derive(Clone, Copy)]
pub(crate) struct Link {
    pub(crate) giver: usize,
    pub(crate) receiver: usize,
}
