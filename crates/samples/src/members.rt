ghost use Rattle.std.specs.Prelude.{Some};
ghost use Rattle.samples.specs.Texts.{text_of};

use std::fmt;
use words::Places;

// A set of members as a word, member k at place k - 1. It prints the members' numbers in rising order, a space before each.
#[derive(Clone, Copy)]
pub struct MemberSet(pub u64);

impl fmt::Display for MemberSet {
    ghost output = { λ members. Some (text_of members.0) };

    #[tactic(auto, using(crate::proofs::Telling::tells_none, crate::proofs::Telling::tells_more, crate::proofs::Telling::tells_all))]
    fn fmt<W: fmt::Write>(&self, f: &mut fmt::Formatter<W>) -> fmt::Result {
        for place in Places(self.0) {
            write!(f, " {}", place + 1)?;
        }
        Ok(())
    }
}

#[cfg(test)]
mod tests {
    use super::MemberSet;
    use std::test::Fail;

    #[test]
    fn members_in_rising_order(rt: HostRuntime) -> Result<(), Fail> {
        let text = format!(in rt.alloc(); "by{}.", MemberSet(0b1000_0101))?;
        assert_eq!(rt; text.as_str(), "by 1 3 8.");
        Ok(())
    }

    #[test]
    fn the_last_member_and_nobody(rt: HostRuntime) -> Result<(), Fail> {
        let text = format!(in rt.alloc(); "{},{}", MemberSet(1 << 63), MemberSet(0))?;
        assert_eq!(rt; text.as_str(), " 64,");
        Ok(())
    }
}
