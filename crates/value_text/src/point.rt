//! Where the text of a path stands, byte by byte.
ghost use Rattle.std.specs.Prelude.{◌≡◌, ◌<◌, ◌≤◌};
ghost use Rattle.bit_slice.specs.HexLists.{is_hex_digit};
ghost use Rattle.bit_slice.specs.Names.{is_name_byte};
ghost use Rattle.value_text.specs.BitsTextLaws.{is_markable};
ghost use Rattle.value_text.specs.PathPoints as points;

/// Where the text of a path stands.
#[derive(Clone, Copy)]
pub(crate) enum Point {
    /// Before the first byte.
    Root,
    /// After the first `/`: the path may end, or a step begins.
    First,
    /// After a further `/`: a step begins.
    Due,
    /// After `x`: a name, which `{` makes a key.
    X,
    /// In a name that begins with a letter.
    Name,
    /// After `_`.
    Blank,
    /// In a number after `_`.
    Count,
    /// After the item number `0`.
    Zero,
    /// In another item number.
    Number(u32),
    /// In a key: how many digits there are, and the last of them.
    Key(u32, u8),
    /// After the mark at the end of a key's bits.
    Marked,
    /// After a whole key.
    Closed,
}

pub(crate) fn is_hex_digit(byte: u8) -> bool
    ensures { result ≡ is_hex_digit byte }
{
    (b'0' <= byte && byte <= b'9') || (b'A' <= byte && byte <= b'F')
}

pub(crate) fn is_name_byte(byte: u8) -> bool
    ensures { result ≡ is_name_byte byte }
{
    byte.is_ascii_alphanumeric() || byte == b'_'
}

pub(crate) fn is_markable(digit: u8) -> bool
    ensures { result ≡ is_markable digit }
{
    !(digit == b'0' || digit == b'8')
}

fn begun(byte: u8) -> Option<Point>
    ensures { result ≡ points.begun byte }
{
    match byte {
        b'x' => Some(Point::X),
        _ if byte.is_ascii_alphabetic() => Some(Point::Name),
        b'_' => Some(Point::Blank),
        b'0' => Some(Point::Zero),
        _ if byte.is_ascii_digit() => Some(Point::Number(u32::from(byte - b'0'))),
        _ => None,
    }
}

fn ended(byte: u8) -> Option<Point>
    ensures { result ≡ points.ended byte }
{
    if byte == b'/' { Some(Point::Due) } else { None }
}

fn in_name(byte: u8) -> Option<Point>
    ensures { result ≡ points.in_name byte }
{
    if is_name_byte(byte) {
        Some(Point::Name)
    } else {
        ended(byte)
    }
}

fn longer(number: u32, digit: u8) -> Option<Point>
    requires low { 48 ≤ digit }
    requires high { digit < 58 }
    ensures { result ≡ points.longer number digit }
{
    let next = 10 * u64::from(number) + u64::from(digit - b'0');
    if next <= u64::from(u32::MAX) {
        Some(Point::Number(next as u32))
    } else {
        None
    }
}

fn in_key(digits: u32, last: u8, byte: u8) -> Option<Point>
    ensures { result ≡ points.in_key digits last byte }
{
    if is_hex_digit(byte) {
        if digits < 255 || (digits == 255 && is_markable(byte)) {
            Some(Point::Key(digits + 1, byte))
        } else {
            None
        }
    } else if byte == b'_' {
        if is_markable(last) {
            Some(Point::Marked)
        } else {
            None
        }
    } else if byte == b'}' && digits < 256 {
        Some(Point::Closed)
    } else {
        None
    }
}

impl Point {
    /// Where one more byte leads to, if a path can go on with it.
    pub(crate) fn next(self, byte: u8) -> Option<Point>
        ensures { result ≡ points.next self byte }
    {
        match self {
            Point::Root if byte == b'/' => Some(Point::First),
            Point::Root => None,
            Point::First | Point::Due => begun(byte),
            Point::X if byte == b'{' => Some(Point::Key(0, b'0')),
            Point::X | Point::Name => in_name(byte),
            Point::Blank if byte.is_ascii_digit() && byte != b'0' => Some(Point::Count),
            Point::Count if byte.is_ascii_digit() => Some(Point::Count),
            Point::Number(number) if byte.is_ascii_digit() => longer(number, byte),
            Point::Key(digits, last) => in_key(digits, last, byte),
            Point::Marked if byte == b'}' => Some(Point::Closed),
            Point::Marked => None,
            Point::Blank | Point::Count | Point::Zero | Point::Number(_) | Point::Closed => ended(
                byte,
            ),
        }
    }

    /// Whether a whole step stands there.
    pub(crate) fn is_step(self) -> bool
        ensures { result ≡ points.is_step self }
    {
        match self {
            Point::Root | Point::First | Point::Due | Point::Key(_, _) | Point::Marked => false,
            Point::X
            | Point::Name
            | Point::Blank
            | Point::Count
            | Point::Zero
            | Point::Number(_)
            | Point::Closed => true,
        }
    }

    /// Whether a path may end there.
    pub(crate) fn may_end(self) -> bool
        ensures { result ≡ points.may_end self }
    {
        match self {
            Point::First => true,
            _ => self.is_step(),
        }
    }
}
