#![tactic(auto)]

ghost use Rattle.std.specs.Prelude.{◌≡◌, Some};
ghost use Rattle.refusals.specs.Numbers.{number_of};
ghost use Rattle.refusals.specs.Texts.{text_of};

use std::error::Error;
use std::fmt;

// Why a call is refused. Callers see the number, readers of a program's errors the text; the name is for code.
// Numbers 1 to 15 are refusals of what a call is given, 20 to 28 of the state that it finds.
#[derive(Clone, Copy, PartialEq, Eq, Debug)]
pub enum Refusal {
    // a file of more than 32,768 bytes
    FileTooLong,
    // a file that is not well shaped
    Shape,
    // a base or valuation year out of range
    Year,
    // an age, odds or fall of a row out of range or out of order
    RowNumber,
    // an age for which the table has no row
    AgeWithoutRow,
    // a stake out of range
    Stake,
    // a file with more than 64 members
    TooManyMembers,
    // a member number of a bar line out of range or out of order
    BarNumber,
    // a table or buffer of another length than asked for
    Length,
    // a number of members, or a member of a line, outside 1 to 64
    MemberRange,
    // a permission word that permits its own giver or somebody beyond the last member
    PermissionWord,
    // a number that is no value of its kind of amount, or a weight below zero
    NotAnAmount,
    // odds, or odds plus change, out of range
    Rates,
    // a member number that was not admitted
    NotAdmitted,
    // one member as both giver and receiver of a bar
    SameMember,
    // a stake with which the total of all stakes would pass its limit
    TotalPassed,
    // a circle that has all its 64 members
    CircleFull,
    // a circle without members
    NobodyAdmitted,
    // a death in a circle without a standing plan
    NoPlanStands,
    // a call that has to wait for the closing of an open death
    DeathOpen,
    // a member who is dead
    MemberDead,
    // an open death that is not the circle's
    OtherDeath,
    // a closing before every receiver is paid
    ReceiverUnpaid,
    // a payment after every receiver is paid
    AllPaid,
}

impl Refusal {
    // The refusal's number in files, lines and documents; no two refusals share one.
    pub fn number(self) -> u8
        ensures value { result ≡ number_of self }
        ensures no_other { (other : Refusal) → number_of other ≡ result → other ≡ self }
    {
        match self {
            Refusal::FileTooLong => 1,
            Refusal::Shape => 2,
            Refusal::Year => 3,
            Refusal::RowNumber => 4,
            Refusal::AgeWithoutRow => 5,
            Refusal::Stake => 6,
            Refusal::TooManyMembers => 7,
            Refusal::BarNumber => 8,
            Refusal::Length => 9,
            Refusal::MemberRange => 10,
            Refusal::PermissionWord => 11,
            Refusal::NotAnAmount => 12,
            Refusal::Rates => 13,
            Refusal::NotAdmitted => 14,
            Refusal::SameMember => 15,
            Refusal::TotalPassed => 20,
            Refusal::CircleFull => 21,
            Refusal::NobodyAdmitted => 22,
            Refusal::NoPlanStands => 23,
            Refusal::DeathOpen => 24,
            Refusal::MemberDead => 25,
            Refusal::OtherDeath => 26,
            Refusal::ReceiverUnpaid => 27,
            Refusal::AllPaid => 28,
        }
    }
}

impl From<Refusal> for u8 {
    ghost from_gives = { λ refusal number. number ≡ number_of refusal };

    fn from(refusal: Refusal) -> u8 {
        refusal.number()
    }
}

// The text names what was met, as the comment at the variant does.
impl fmt::Display for Refusal {
    ghost output = { λ refusal. Some (text_of refusal) };

    fn fmt<W: fmt::Write>(&self, f: &mut fmt::Formatter<W>) -> fmt::Result {
        f.write_str(match self {
            Refusal::FileTooLong => "a file of more than 32,768 bytes",
            Refusal::Shape => "a file that is not well shaped",
            Refusal::Year => "a base or valuation year out of range",
            Refusal::RowNumber => "an age, odds or fall of a row out of range or out of order",
            Refusal::AgeWithoutRow => "an age for which the table has no row",
            Refusal::Stake => "a stake out of range",
            Refusal::TooManyMembers => "a file with more than 64 members",
            Refusal::BarNumber => "a member number of a bar line out of range or out of order",
            Refusal::Length => "a table or buffer of another length than asked for",
            Refusal::MemberRange => "a number of members, or a member of a line, outside 1 to 64",
            Refusal::PermissionWord =>
                "a permission word that permits its own giver or somebody beyond the last member",
            Refusal::NotAnAmount =>
                "a number that is no value of its kind of amount, or a weight below zero",
            Refusal::Rates => "odds, or odds plus change, out of range",
            Refusal::NotAdmitted => "a member number that was not admitted",
            Refusal::SameMember => "one member as both giver and receiver of a bar",
            Refusal::TotalPassed =>
                "a stake with which the total of all stakes would pass its limit",
            Refusal::CircleFull => "a circle that has all its 64 members",
            Refusal::NobodyAdmitted => "a circle without members",
            Refusal::NoPlanStands => "a death in a circle without a standing plan",
            Refusal::DeathOpen => "a call that has to wait for the closing of an open death",
            Refusal::MemberDead => "a member who is dead",
            Refusal::OtherDeath => "an open death that is not the circle's",
            Refusal::ReceiverUnpaid => "a closing before every receiver is paid",
            Refusal::AllPaid => "a payment after every receiver is paid",
        })
    }
}

impl Error for Refusal {}

#[cfg(test)]
mod tests {
    use super::Refusal;
    use std::test::Fail;

    #[test]
    fn a_refusal_prints_its_text(rt: HostRuntime) -> Result<(), Fail> {
        let text = format!(in rt.alloc(); "refused: {}", Refusal::SameMember)?;
        assert_eq!(rt;
            text.as_str(),
            "refused: one member as both giver and receiver of a bar"
        );
        Ok(())
    }

    #[test]
    fn a_refusal_converts_to_its_number(rt: HostRuntime) {
        assert_eq!(rt; u8::from(Refusal::AllPaid), 28);
    }
}
