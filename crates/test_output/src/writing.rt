// Numbers, texts, labels and values on the standard output.
use steps::Said;
use values::Value;

pub fn write(text: &[u8]) {
    io::write_all(1, text);
}

// A blank and a number.
pub fn number(n: usize) {
    write(b" ");
    io::print_decimal(1, n as u64);
}

// A blank and a word.
pub fn word(w: u32) {
    number(w as usize);
}

// All words of a list, each behind a blank.
pub fn write_words(list: &[u32]) {
    for &w in list {
        word(w);
    }
}

// What a step says; a refusal has its number.
pub fn write_said(said: Said) {
    match said {
        Said::In => write(b" in"),
        Said::Out => write(b" out"),
        Said::Log => write(b" log"),
        Said::Silent => write(b" tau"),
        Said::Refused(n) => {
            write(b" no");
            word(n);
        }
    }
}

// The length of a value, and its words; then its last place, where that is past the length and not 0.
pub fn write_value(v: Value) {
    let n = v.count();
    let last = v.words[15];
    write(b" length");
    number(v.len);
    write_words(&v.words[..n]);
    if n < 16 && last != 0 {
        write(b" past it");
        word(last);
    }
}
