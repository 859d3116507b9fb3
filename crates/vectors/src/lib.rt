// Vectors as text, a digit for a symbol: read where they stand, spelled where they stand, and how much of an area is zero.
#![tactic(auto)]

// What stands in an area before a call, and what is read where no digit is: no symbol.
// A byte and no Option, since it stands in areas of bytes.
pub const UNTOUCHED: u8 = 255;

// The number of a digit. Letters beyond f are the numbers from 16 on, which are no symbols.
fn number_of_digit(digit: u8) -> u8 {
    match digit {
        b'0'..=b'9' => digit - b'0',
        b'a'..=b'z' => digit - b'a' + 10,
        _ => UNTOUCHED,
    }
}

// The digit of a symbol, and a dot for what is none.
fn digit_of_symbol(symbol: u8) -> u8 {
    match symbol {
        0..=9 => b'0' + symbol,
        10..=15 => b'a' + (symbol - 10),
        _ => b'.',
    }
}

// Digits into their numbers, where they stand.
pub fn read_symbols(text: &mut [u8]) {
    for symbol in text.iter_mut() {
        *symbol = number_of_digit(*symbol);
    }
}

// Symbols into their digits, where they stand.
pub fn spell_symbols(area: &mut [u8]) {
    for symbol in area.iter_mut() {
        *symbol = digit_of_symbol(*symbol);
    }
}

// A decimal number of at most four digits.
pub fn read_number(text: &[u8]) -> usize {
    text.iter().fold(0, |number, &digit| {
        number % 1000 * 10 + number_of_digit(digit) as usize
    })
}

// How many places are zero before the first that is not.
pub fn zeros_first(area: &[u8]) -> usize {
    area.iter().take_while(|&&symbol| symbol == 0).count()
}
