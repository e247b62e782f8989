//! Classes and runs of bytes.
ghost use Rattle.std.specs.Prelude.{◌≡◌, ◌≤◌, ◌==◌, not, position, length};
ghost use Rattle.std.specs.List.{prefix_len};
ghost use Rattle.tlb_lexer.specs.Bytes.{is_white, is_letter, is_digit, is_name_byte, is_bit, is_hex_digit, is_sign};
ghost use Rattle.tlb_lexer.specs.Stretch.{class, sign_class, is_in_run};

/// What a token or a gap begins with.
#[derive(Clone, Copy)]
pub enum Class {
    White,
    Letter,
    Digit,
    Underscore,
    Dollar,
    NumberSign,
    Slash,
    /// `<` or `>`.
    Angle,
    /// A symbol of one byte that no longer one begins with.
    Sign,
    Other,
}

/// Bytes that a token or a comment goes on with.
#[derive(Clone, Copy)]
pub enum Run {
    NameBytes,
    Digits,
    Bits,
    HexDigits,
    Line,
}

fn is_white(byte: u8) -> bool
    ensures { result ≡ is_white byte }
{
    byte == b' ' || byte == b'\t' || byte == b'\r' || byte == b'\n'
}

fn is_alphabetic(byte: u8) -> bool
    ensures { result ≡ is_letter byte }
{
    (b'A' <= byte && byte <= b'Z') || (b'a' <= byte && byte <= b'z')
}

fn is_decimal(byte: u8) -> bool
    ensures { result ≡ is_digit byte }
{
    b'0' <= byte && byte <= b'9'
}

fn is_of_name(byte: u8) -> bool
    ensures { result ≡ is_name_byte byte }
{
    is_alphabetic(byte) || is_decimal(byte) || byte == b'_'
}

fn is_binary(byte: u8) -> bool
    ensures { result ≡ is_bit byte }
{
    byte == b'0' || byte == b'1'
}

fn is_hexadecimal(byte: u8) -> bool
    ensures { result ≡ is_hex_digit byte }
{
    is_decimal(byte) || (b'A' <= byte && byte <= b'F') || (b'a' <= byte && byte <= b'f')
}

fn is_symbol_byte(byte: u8) -> bool
    ensures { result ≡ is_sign byte }
{
    b"#:;=(){}[]^~?.*+<>!".contains(&byte)
}

fn sign_class(byte: u8) -> Class
    ensures { result ≡ sign_class byte }
{
    match byte {
        b'_' => Class::Underscore,
        b'$' => Class::Dollar,
        b'#' => Class::NumberSign,
        b'/' => Class::Slash,
        b'<' | b'>' => Class::Angle,
        _ if is_symbol_byte(byte) => Class::Sign,
        _ => Class::Other,
    }
}

/// The class of a byte.
pub fn class_of(byte: u8) -> Class
    ensures { result ≡ class byte }
{
    if is_white(byte) {
        Class::White
    } else if is_alphabetic(byte) {
        Class::Letter
    } else if is_decimal(byte) {
        Class::Digit
    } else {
        sign_class(byte)
    }
}

fn goes_on(run: Run, byte: u8) -> bool
    ensures { result ≡ is_in_run run byte }
{
    match run {
        Run::NameBytes => is_of_name(byte),
        Run::Digits => is_decimal(byte),
        Run::Bits => is_binary(byte),
        Run::HexDigits => is_hexadecimal(byte),
        Run::Line => byte != b'\n',
    }
}

fn run_end(bytes: &[u8], run: Run) -> Option<usize>
    ensures { result ≡ position (λ b. not (is_in_run run b)) bytes.now }
{
    bytes.iter().position(|byte| !goes_on(run, *byte))
}

/// How many first bytes are of the run.
pub fn run_len(bytes: &[u8], run: Run) -> usize
    ensures exact { result ≡ prefix_len (is_in_run run) bytes.now }
    ensures within { result ≤ length bytes.now }
{
    match run_end(bytes, run) {
        Some(end) => end,
        None => bytes.len(),
    }
}
