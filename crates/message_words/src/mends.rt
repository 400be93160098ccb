//! How a broken rule is mended.

ghost use Rattle.std.specs.Prelude.{◌≡◌};
ghost use Rattle.message_words.specs.Mends.{rule_mend};

/// How to mend what breaks a rule, by the rule's number.
#[tactic(auto, unfolding(crate::specs::Mends::rule_mend))]
pub fn rule_mend(rule: u8) -> &'static [u8]
    ensures { result.now ≡ rule_mend rule }
{
    if rule == 1 {
        b"Let n0 to n7 hold numbers and r0 to r7 references, as the fields and the roots say"
    } else if rule == 2 {
        b"Compare what the nodes hold, or ask by 'ifeq' for the same node"
    } else if rule == 3 {
        b"Make the node in the generator, outside of loops, and let a wrap-up that needs one go back by 'again'"
    } else if rule == 4 {
        b"Put numbers and shared references alone, into a node that this generator has made, and change shared nodes by 'cas'"
    } else if rule == 5 {
        b"Leave this exchange to the commit"
    } else if rule == 6 {
        b"Name the register of the new node in puts and in one entry of the commit alone, and read it in no wrap-up"
    } else if rule == 7 {
        b"Load within the loop what it waits for"
    } else if rule == 8 {
        b"End a generator by 'commit', and a wrap-up by 'return', 'returnnone' or 'again'"
    } else if rule == 9 {
        b"Set another register"
    } else if rule == 10 {
        b"Read it in the generator, or let the wrap-up load the register anew first"
    } else if rule == 11 {
        b"Load what is exchanged anew in the wrap-up"
    } else if rule == 12 {
        b"Retire the node that the exchange cuts off, in the register of its expected value or of its object"
    } else if rule == 13 {
        b"Count instructions from 0 and entries of a commit not at all, and declare the roots of a pick one after the other"
    } else if rule == 14 {
        b"Set the register on each way there, and what a wrap-up reads before each commit"
    } else if rule == 15 {
        b"Keep references to nodes of different kinds in registers of their own"
    } else {
        b"Write it as the rule says"
    }
}
