// What a refused call says.
use std::process::Abort;
use std::test::Fail;
use turns::{Layer, Refusal};

// Number, layer, match, seat and turn. No `Refusal`: its reason would take the number from what is tested.
pub(crate) type Said = (u8, Layer, u8, u8, u8);

pub(crate) fn says<T: Drop>(
    rt: &impl Abort,
    answer: Result<T, Refusal>,
    said: Said,
) -> Result<(), Fail> {
    let Err(refusal) = answer else {
        return Err(Fail::new("let through"));
    };
    let Refusal {
        reason,
        layer,
        at_match,
        seat,
        turn,
    } = refusal;
    assert!(rt; (u8::from(reason), layer, at_match, seat, turn) == said);
    Ok(())
}
