ghost use Rattle.std.specs.Prelude.{◌≡◌};
ghost use Rattle.maps.specs.Signs.{sign_of};

// What a cell's sign says of it.
#[derive(Clone, Copy, PartialEq, Eq, Debug)]
pub enum Sign {
    Free,
    Blocked,
    Strange,
}

pub fn read_sign(sign: char) -> Sign
    ensures { result ≡ sign_of sign }
{
    match sign {
        '.' | 'G' => Sign::Free,
        '@' | 'O' | 'T' | 'S' | 'W' => Sign::Blocked,
        _ => Sign::Strange,
    }
}
