ghost use Rattle.std.specs.Prelude.{◌≡◌, ◌<◌, IfSome};
ghost use Rattle.strip.specs.Hex.{digit_value};

/// The value of a lower-case hex digit. By hand, since `to_digit` takes upper case, too, and answers a `u32`.
pub fn digit(byte: u8) -> Option<u8>
    ensures value { result ≡ digit_value byte }
    ensures bound { IfSome result (λ v. v < 16) }
{
    match char::from(byte) {
        '0'..='9' => Some(byte - b'0'),
        'a'..='f' => Some(byte - b'a' + 10),
        _ => None,
    }
}
