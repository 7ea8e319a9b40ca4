ghost use Rattle.std.specs.Prelude.{◌≡◌, ◌+◌, ◌++◌, length};

/// Two slices in a row.
pub(crate) fn in_row<const N: usize>(left: &[u8], right: &[u8]) -> [u8; N]
    requires { length left.now + length right.now ≡ N }
    ensures { result ≡ left.now ++ right.now }
{
    let mut row = [0; N];
    let (front, back) = row.split_at_mut(left.len());
    front.copy_from_slice(left);
    back.copy_from_slice(right);
    row
}
