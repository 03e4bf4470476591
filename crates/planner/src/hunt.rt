ghost use Rattle.std.specs.Prelude.{◌≡◌, ℕ, ◌<◌, true, false, not, ◌&&◌, length, IfSome, MatchOption, slice_index};
ghost use Rattle.words.specs.Words.{bit};
ghost use Rattle.flow.specs.Search.{Ends, searching, joined, noted, backs, outs, fresh as untouched};
ghost use Rattle.planner.specs.Finds.{Finds, Leads, Straight};
ghost use Rattle.planner.specs.Model.{model, tests, Sound, Popped, ending, Within};

use crate::checks::MEMBERS;
use crate::state::{Link, Marks, Seek, Words};
use crate::way::Way;
use words::Places;

// A search on its way among the words of a run.
#[derive(Drop)]
struct Search<'a> {
    words: &'a Words,
    seek: Seek,
    ghost sound: { Sound words.now.n seek },
}

// What a method leaves as it was is a clause for each of the two, `still` and `words`: a record of two says no more.
impl<'a> Search<'a> {
    // A search that has reached the givers with something to give, queued in rising number.
    fn start(words: &'a Words) -> Search<'a>
        ensures stands { model searching result.seek ≡ untouched (tests words.now) }
        ensures first { result.seek.head ≡ 0 }
        ensures words { result.words.now ≡ words.now }
    {
        // the places are counted, since the search goes on from the queue's end
        let mut queue = [0; MEMBERS];
        let mut tail = 0;
        for k in Places(words.givers) {
            queue[tail] = k as u8; // no bit is lost, which is proved
            tail += 1;
        }
        Search {
            words,
            seek: Seek {
                queue,
                head: 0,
                tail,
                reached: words.givers,
                seen: 0,
                marks: Marks::none(),
            },
        }
    }

    // The giver at the queue's front.
    fn front(&self) -> usize
        requires { self.now.seek.head < 64 }
        ensures { result ≡ slice_index self.now.seek.queue self.now.seek.head }
    {
        usize::from(self.seek.queue[self.seek.head])
    }

    // The giver at the queue's front, who leaves it.
    fn pop(&mut self) -> Option<usize>
        ensures popped { Popped self.old.seek result self.new.seek }
        ensures words { self.new.words.now ≡ self.old.words.now }
    {
        if self.seek.head == self.seek.tail {
            return None;
        }
        let j = self.front();
        self.seek.head += 1;
        Some(j)
    }

    // Whether receiver i has still to get, so that a search ends there.
    fn wants(&self, i: usize) -> bool
        requires { i < 64 }
        ensures { result ≡ bit self.now.words.now.takers i }
    {
        words::has(self.words.takers, i)
    }

    // The givers not yet reached whose transfer to receiver i is above zero.
    fn backward(&self, i: usize) -> u64
        requires { i < 64 }
        ensures { (k : ℕ) → bit result k ≡ (bit (slice_index self.now.words.now.holders i) k && not (bit self.now.seek.reached k)) }
    {
        words::except(self.words.holders[i], self.seek.reached)
    }

    // Reaches giver k back from receiver i; k joins the queue's end.
    fn join(&mut self, i: usize, k: usize)
        requires receiver { i < self.old.words.now.n }
        requires giver { k < self.old.words.now.n }
        requires new { bit self.old.seek.reached k ≡ false }
        ensures stands { (e : Ends) → model e self.new.seek ≡ joined i k (model e self.old.seek) }
        ensures still { self.new.seek.head ≡ self.old.seek.head }
        ensures words { self.new.words.now ≡ self.old.words.now }
    {
        self.seek.reached = words::with(self.seek.reached, k);
        // `as`: no bit of a member's number is lost, which is proved
        self.seek.marks.via[k] = i as u8;
        self.seek.queue[self.seek.tail] = k as u8;
        self.seek.tail += 1;
    }

    // Reaches the givers back from receiver i in rising number.
    fn back(&mut self, i: usize)
        requires { i < self.old.words.now.n }
        ensures stands { model searching self.new.seek ≡ backs (tests self.old.words.now) i self.old.words.now.n (model searching self.old.seek) }
        ensures still { self.new.seek.head ≡ self.old.seek.head }
        ensures words { self.new.words.now ≡ self.old.words.now }
    {
        for k in Places(self.backward(i)) {
            self.join(i, k);
        }
    }

    // Notes that receiver i was seen from giver j.
    fn note(&mut self, j: usize, i: usize)
        requires giver { j < self.old.words.now.n }
        requires receiver { i < self.old.words.now.n }
        ensures stands { (e : Ends) → model e self.new.seek ≡ noted j i (model e self.old.seek) }
        ensures still { self.new.seek.head ≡ self.old.seek.head }
        ensures words { self.new.words.now ≡ self.old.words.now }
    {
        self.seek.seen = words::with(self.seek.seen, i);
        self.seek.marks.from[i] = j as u8; // no bit is lost, which is proved
    }

    // Takes the receivers permitted from giver j in rising number, and answers the first that has still to get.
    fn visit(&mut self, j: usize) -> Option<usize>
        requires { j < self.old.words.now.n }
        ensures stands { model (ending result) self.new.seek ≡ outs (tests self.old.words.now) j self.old.words.now.n (model searching self.old.seek) }
        ensures still { self.new.seek.head ≡ self.old.seek.head }
        ensures member { Within self.old.words.now.n result }
        ensures words { self.new.words.now ≡ self.old.words.now }
    {
        for i in Places(words::except(self.words.permitted[j], self.seek.seen)) {
            self.note(j, i);
            if self.wants(i) {
                return Some(i);
            }
            self.back(i);
        }
        None
    }
}

// Visits one giver after another from the queue's front, until a receiver is found or the queue is empty.
fn search_all<'a>(w: &Words, marks: &'a mut Marks) -> Result<Way<'a>, u64>
    ensures { Finds w.now result }
{
    let mut search = Search::start(w);
    // the queue grows while it is emptied, so there is nothing to iterate over
    while let Some(j) = search.pop() {
        if let Some(receiver) = search.visit(j) {
            *marks = search.seek.marks;
            return Ok(Way {
                last: usize::from(marks.from[receiver]),
                marks: Some(marks),
                receiver,
                members: w.n,
                givers: w.givers,
            });
        }
    }
    Err(search.seek.reached)
}

// The receivers permitted from giver j that have still to get.
fn wanting(w: &Words, j: usize) -> u64
    requires { j < 64 }
    ensures { (i : ℕ) → bit result i ≡ (bit (slice_index w.now.permitted j) i && bit w.now.takers i) }
{
    words::both(w.permitted[j], w.takers)
}

// The member of a set with the lowest number.
fn lowest(members: u64) -> Option<usize>
    ensures { MatchOption result (members ≡ 0) (λ k. (k < 64) × (bit members k ≡ true) × ((j : ℕ) → j < k → bit members j ≡ false)) }
{
    Places(members).next()
}

// The first giver with something to give who permits a receiver that has still to get, and the first such receiver.
// A search comes to this receiver from this giver, whatever it sees before.
fn at_once(w: &Words) -> Option<Link>
    ensures { IfSome result (λ l. Straight w.now l.giver l.receiver) }
{
    for giver in Places(w.givers) {
        if let Some(receiver) = lowest(wanting(w, giver)) {
            return Some(Link { giver, receiver });
        }
    }
    None
}

// The way of one link.
fn straight(w: &Words, link: Link) -> Way<'static>
    requires { Straight w.now link.giver link.receiver }
    ensures { Leads w.now result }
{
    Way {
        marks: None,
        last: link.giver,
        receiver: link.receiver,
        members: w.n,
        givers: w.givers,
    }
}

// The way that the search of a step finds, or else the givers whom it reached. It is searched for only where it is not
// found at once.
pub(crate) fn find<'a>(w: &Words, marks: &'a mut Marks) -> Result<Way<'a>, u64>
    ensures { Finds w.now result }
{
    match at_once(w) {
        Some(link) => Ok(straight(w, link)),
        None => search_all(w, marks),
    }
}
