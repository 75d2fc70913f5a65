// The answers of the public functions.
ghost use Rattle.std.specs.Prelude.{◌≡◌};
ghost use Rattle.tape.specs.Answer.{fault_number, outcome, refused, number_of};

// The count of finished bytes, the end mark of line reading, or a refusal of the table: 1 to 10 of document 01, 13 and 14 of document 02.
#[derive(Clone, Copy)]
pub enum Answer {
    Count(usize),
    End,
    // 1: tape under 8 or over 1,048,576 bytes, or body length plus 8 not its length
    Misfit,
    // 2: node outside the layout, or wrong top-level count
    BadNode,
    // 3: a container opened while 64 are open
    TooDeep,
    // 4: a finite float that is no whole number of magnitude up to 2^53
    FiniteFloat,
    // 5: streaming: a kind 13; tree: not one top-level node, a marker, or an identifier but 0
    Unsuited,
    // 6: text longer than the buffer
    TextTooLong,
    // 7: layout over 2
    NoLayout,
    // 8: text outside the grammar
    OutsideGrammar,
    // 9: tape longer than the lesser of buffer and 1,048,576
    TapeTooLong,
    // 10: the session's offset is past the text
    PastText,
    // 13: the converter's text is outside the old grammar
    OutsideOldGrammar,
    // 14: the converter's output is longer than the buffer
    OutputTooLong,
}

// What a tape is refused by, whoever reads it: the first four of the table.
#[derive(Clone, Copy)]
pub enum Fault {
    Misfit,
    BadNode,
    TooDeep,
    FiniteFloat,
}

impl Fault {
    // Its number in the table.
    pub fn number(self) -> u8
        ensures { result ≡ fault_number self }
    {
        match self {
            Fault::Misfit => 1,
            Fault::BadNode => 2,
            Fault::TooDeep => 3,
            Fault::FiniteFloat => 4,
        }
    }
}

impl From<Fault> for Answer {
    ghost from_gives = { λ fault answer. outcome answer ≡ refused (fault_number fault) };

    fn from(fault: Fault) -> Answer {
        match fault {
            Fault::Misfit => Answer::Misfit,
            Fault::BadNode => Answer::BadNode,
            Fault::TooDeep => Answer::TooDeep,
            Fault::FiniteFloat => Answer::FiniteFloat,
        }
    }
}

// The number of a refusal; 0 for a count and for the end mark.
pub fn number(a: Answer) -> u8
    ensures { result ≡ number_of (outcome a) }
{
    match a {
        Answer::Count(_) => 0,
        Answer::End => 0,
        Answer::Misfit => 1,
        Answer::BadNode => 2,
        Answer::TooDeep => 3,
        Answer::FiniteFloat => 4,
        Answer::Unsuited => 5,
        Answer::TextTooLong => 6,
        Answer::NoLayout => 7,
        Answer::OutsideGrammar => 8,
        Answer::TapeTooLong => 9,
        Answer::PastText => 10,
        Answer::OutsideOldGrammar => 13,
        Answer::OutputTooLong => 14,
    }
}
