// Numbers in decimal, and bytes in hex.
ghost use Rattle.std.specs.Prelude.{◌≡◌, ◌/◌, ◌%◌, ◌<◌, [], ◌∷◌};
ghost use Rattle.script.specs.Figures.{number_of, hex_byte, hex_digit, hex_of, ReadsBack};

// The number that one to nine decimal digits write.
pub fn number(word: &[u8]) -> Option<u32>
    ensures { result ≡ number_of word.now }
{
    if !(1..=9).contains(&word.len()) {
        return None;
    }
    let mut value = 0;
    for byte in word {
        value = 10 * value + char::from(*byte).to_digit(10)?;
    }
    Some(value)
}

// The byte that two hex digits write, in either case.
#[tactic(auto, using(crate::proofs::Steps::reads_back))]
pub fn read_hex(word: &[u8]) -> Option<u8>
    ensures value { result ≡ hex_byte word.now }
    ensures always { ReadsBack }
{
    let [high, low] = word else {
        return None;
    };
    let high = char::from(*high).to_digit(16)?;
    let low = char::from(*low).to_digit(16)?;
    Some((16 * high + low) as u8)
}

fn hex_digit(value: u8) -> u8
    requires { value < 16 }
    ensures { result ≡ hex_digit value }
{
    if value < 10 {
        b'0' + value
    } else {
        b'A' + (value - 10)
    }
}

// A byte as two hex digits: reading them gives the byte back.
#[tactic(auto, using(crate::proofs::Steps::reads_back))]
pub fn write_hex(byte: u8) -> [u8; 2]
    ensures value { result ≡ hex_of byte }
    ensures always { ReadsBack }
{
    [hex_digit(byte / 16), hex_digit(byte % 16)]
}
