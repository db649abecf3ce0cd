// Replays recorded runs through `text` and compares the outputs byte by byte.
//
// Input: for each run a line `run INDEX INPUT-BYTES OUTPUT-BYTES`, indexes from 0 on; the input, a newline, the output, a newline.
//
// Output: `run K differs` for each run whose output is not the recorded one; `malformed at run K` where the file holds no run,
// breaks off or has a header that cannot be read, and nothing after that place is looked at; at the end `R runs, D differ`.
#![tactic(auto)]

use text::text;

// The descriptor of standard output.
const STDOUT: i32 = 1;

// More runs than this are not read.
const MOST_RUNS: usize = 100000;

// A header line has at most so many bytes, its newline counted.
const HEADER_BYTES: usize = 64;

// The file holds no run at this place, breaks off or has a header that cannot be read.
#[derive(Clone, Copy)]
struct Malformed;

// The runs replayed, and how many of them differ.
#[derive(Clone, Copy)]
struct Count {
    runs: usize,
    differ: usize,
}

// The next byte; none where the file ends.
fn read_byte() -> Option<u8> {
    let mut one = [0u8; 1];
    match io::read_full(0, &mut one) {
        0 => None,
        _ => Some(one[0]),
    }
}

// The number whose digits begin a line, if it has a digit and is below ten million, and what is behind it.
fn decimal(line: &[u8]) -> Option<(usize, &[u8])> {
    let mut v: usize = 0;
    let mut rest = line;
    while let Some((b, behind)) = rest.split_first() {
        if !b.is_ascii_digit() {
            break;
        }
        if 999999 < v {
            return None;
        }
        v = v * 10 + (*b - b'0') as usize;
        rest = behind;
    }
    if rest.len() == line.len() {
        None
    } else {
        Some((v, rest))
    }
}

// The same behind a blank.
fn decimal_after_blank(line: &[u8]) -> Option<(usize, &[u8])> {
    decimal(line.strip_prefix(b" ")?)
}

// The sizes of input and output in the header of run k.
fn sizes(line: &[u8], k: usize) -> Option<(usize, usize)> {
    let line = line.strip_prefix(b"run")?;
    let (index, line) = decimal_after_blank(line)?;
    let (input, line) = decimal_after_blank(line)?;
    let (output, line) = decimal_after_blank(line)?;
    if index == k && line.is_empty() {
        Some((input, output))
    } else {
        None
    }
}

// Reads the header of run k, up to its newline: the sizes; none where the file ends behind a run.
fn read_header(k: usize) -> Result<Option<(usize, usize)>, Malformed> {
    let mut line = [0u8; HEADER_BYTES];
    for n in 0..HEADER_BYTES {
        match read_byte() {
            Some(b'\n') => return sizes(&line[..n], k).map(Some).ok_or(Malformed),
            Some(b) => line[n] = b,
            None if n == 0 && 0 < k => return Ok(None),
            None => return Err(Malformed),
        }
    }
    Err(Malformed)
}

// Fills a part and reads the newline after it.
fn read_part(part: &mut [u8]) -> Result<(), Malformed> {
    if io::read_full(0, part) == part.len() && read_byte() == Some(b'\n') {
        Ok(())
    } else {
        Err(Malformed)
    }
}

// Whether an input has the recorded output.
fn has_output(input: &[u8], recorded: &[u8], out: &mut [u8]) -> bool {
    text(input, out).is_ok_and(|n| n <= out.len() && &out[..n] == recorded)
}

// Reads the header of run k and its two parts, and replays it: whether it has the recorded output; none where the file ends.
fn replay_next(
    k: usize,
    input: &mut [u8],
    recorded: &mut [u8],
    out: &mut [u8],
) -> Result<Option<bool>, Malformed> {
    let Some((n, m)) = read_header(k)? else {
        return Ok(None);
    };
    let input = input.get_mut(..n).ok_or(Malformed)?;
    read_part(input)?;
    let recorded = recorded.get_mut(..m).ok_or(Malformed)?;
    read_part(recorded)?;
    Ok(Some(has_output(input, recorded, out)))
}

fn write_malformed(k: usize) {
    io::write_all(STDOUT, b"malformed at run ");
    io::print_decimal(STDOUT, k as u64);
    io::write_all(STDOUT, b"\n");
}

fn write_differs(k: usize) {
    io::write_all(STDOUT, b"run ");
    io::print_decimal(STDOUT, k as u64);
    io::write_all(STDOUT, b" differs\n");
}

// Replays run after run up to the file's end, and writes which differ.
fn replay_all(input: &mut [u8], recorded: &mut [u8], out: &mut [u8]) -> Count {
    let mut differ: usize = 0;
    for k in 0..MOST_RUNS {
        match replay_next(k, input, recorded, out) {
            Ok(Some(true)) => {},
            Ok(Some(false)) => {
                write_differs(k);
                differ += 1;
            },
            Ok(None) => return Count { runs: k, differ },
            Err(Malformed) => {
                write_malformed(k);
                return Count { runs: k, differ };
            },
        }
    }
    write_malformed(MOST_RUNS);
    Count {
        runs: MOST_RUNS,
        differ,
    }
}

fn main() {
    let mut input = [0u8; 65537];
    let mut recorded = [0u8; 206848];
    let mut out = [0u8; 206848];
    let c = replay_all(&mut input, &mut recorded, &mut out);
    io::print_decimal(STDOUT, c.runs as u64);
    io::write_all(STDOUT, b" runs, ");
    io::print_decimal(STDOUT, c.differ as u64);
    io::write_all(STDOUT, b" differ\n");
}
