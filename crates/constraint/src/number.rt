// Numbers: how far a text goes on as a number, and which.
ghost use Rattle.constraint.specs.Numeral.{Digit};
ghost use Rattle.constraint.specs.Reader.{Grows, ReadsLongest, ReadsField};

use crate::Spelled;

// The number with a further byte, after the number before it, if there is one: None where the byte cannot stand there. A 0 in front is a number by itself.
fn grown(before: Option<u16>, byte: u8) -> Option<u16>
    ensures { Grows before byte result }
{
    if !byte.is_ascii_digit() || before == Some(0) {
        return None;
    }
    let next = u32::from(before.unwrap_or(0)) * 10 + u32::from(byte - b'0');
    u16::try_from(next).ok()
}

// The longest number that a text begins with.
pub fn longest(rest: &[u8]) -> Option<Spelled<u16>>
    ensures { ReadsLongest rest.now result }
{
    let mut number: Option<u16> = None;
    for (used, byte) in rest.iter().enumerate() {
        let Some(next) = grown(number, *byte) else {
            return number.map(|value| Spelled { value, used });
        };
        number = Some(next);
    }
    number.map(|value| Spelled {
        value,
        used: rest.len(),
    })
}

// Reads a number that the byte `stop` ends: the number, with that byte among those used.
pub fn ended(rest: &[u8], stop: u8) -> Option<Spelled<u16>>
    requires { ¬ Digit stop }
    ensures { ReadsField stop rest.now result }
{
    let Spelled { value, used } = longest(rest)?;
    if *rest.get(used)? != stop {
        return None;
    }
    Some(Spelled {
        value,
        used: used + 1,
    })
}
