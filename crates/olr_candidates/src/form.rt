//! What a different form of way adds to the penalty.

ghost use Rattle.std.specs.Prelude.{◌≡◌, ◌≤◌};
ghost use Rattle.olr_candidates.specs.Form.{form_penalty, is_like};

/// Whether the first form is easily taken for the second, in this order.
fn is_like(a: u8, b: u8) -> bool
    ensures { result ≡ is_like a b }
{
    matches!((a, b), (1, 2) | (2, 3) | (3, 6) | (4, 5))
}

/// What a line of form `a` adds to the penalty where the point asks for form `b`: 0 to 30.
pub(crate) fn form_penalty(a: u8, b: u8) -> u16
    ensures penalty { result ≡ form_penalty a b }
    ensures at_most { result ≤ 30 }
{
    if a == b {
        return 0;
    }
    if a == 0 || b == 0 {
        return 10;
    }
    if is_like(a, b) || is_like(b, a) {
        return 15;
    }
    30
}
