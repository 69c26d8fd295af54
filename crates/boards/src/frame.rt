ghost use Rattle.std.specs.Prelude.{◌≡◌, Some, None, MatchOption};
ghost use Rattle.boards.specs.Frame.{framed};

// The bytes that a two-byte length at the front announces, and those behind them; none where the length or they are not whole.
pub fn first_frame(input: &[u8]) -> Option<(&[u8], &[u8])>
    ensures { MatchOption result (framed input.now ≡ None) (λ p. framed input.now ≡ Some (p.0.now, p.1.now)) }
{
    let [high, low, rest @ ..] = input else {
        return None;
    };
    let length = u16::from_be_bytes([*high, *low]) as usize;
    rest.split_at_checked(length)
}
