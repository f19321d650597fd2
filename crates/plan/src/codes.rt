// Document 01's number and place of each refusal of a volume and a plan.
ghost use Rattle.std.specs.Prelude.{◌≡◌};
ghost use Rattle.plan.specs.Answers.{fault_code, code_of, at_of};

use super::answers::{Fault, Refusal};
use volume::Code;

// The number of a row's fault.
fn fault_code(fault: Fault) -> u32
    ensures { result ≡ fault_code fault }
{
    match fault {
        Fault::Form => 10,
        Fault::List => 11,
        Fault::TooMany => 12,
        Fault::Order => 13,
    }
}

// The code of a refusal of a volume and a plan.
pub fn code_of(why: Refusal) -> Code
    ensures number_value { result.number ≡ code_of why }
    ensures at_value { result.at ≡ at_of why }
{
    match why {
        Refusal::Volume(of) => volume::code_of(of),
        Refusal::Length => Code { number: 9, at: 0 },
        Refusal::Row(fault, row) => Code {
            number: fault_code(fault),
            at: row,
        },
        Refusal::Unfinished => Code { number: 14, at: 0 },
    }
}
