//! The words of the command line.
ghost use Rattle.std.specs.Prelude.{◌≡◌, ◌≤◌, map, string_bytes, IfSome, IsSome, None, Some, true, false};
ghost use Rattle.samoa_run.specs.Words.{HasNumbers, HasRanges, is_replay, made_in, order_in, run_with as run_of, serial_with as serial_of, when_alone as alone, options_in as options_of, options_from as options_after, with_word as after_word, with_option as after_option, with_number as after_number, unless_awaiting as unless_awaited, number_in as number_of, number_from as number_after};

use samoa_script::MOST_GENERATED;

/// What the words ask for.
#[derive(Clone, Copy, Debug, PartialEq, Eq)]
pub enum Order {
    /// The report of a script by so many workers, with so many cells for what is open at once, and the journal after it
    /// where that is asked for.
    Run {
        workers: u32,
        cells: u32,
        calls: bool,
        journal: bool,
    },
    /// The report of a script, one computation after another.
    Serial {
        calls: bool,
    },
    /// The canonical text of a script.
    Check,
}

/// How many workers there are where none are given.
pub const WORKERS: u32 = 4;

/// The most workers that can be given.
pub const MOST_WORKERS: u32 = 64;

/// How many cells there are where none are given.
pub const CELLS: u32 = 65_536;

/// The most cells that can be given.
pub const MOST_CELLS: u32 = 1_048_576;

/// The options of a run, each as it is given.
#[derive(Clone, Copy, Debug, PartialEq, Eq)]
struct Options {
    workers: Option<u32>,
    cells: Option<u32>,
    calls: bool,
    journal: bool,
}

/// An option that has a number.
#[derive(Clone, Copy, Debug, PartialEq, Eq)]
enum Numbered {
    Workers,
    Cells,
}

/// The options read so far, and the one whose number comes next.
#[derive(Clone, Copy, Debug, PartialEq, Eq)]
struct Taken {
    options: Options,
    awaits: Option<Numbered>,
}

/// The order that the words give, if they give one.
pub fn order_in(words: &[String]) -> Option<Order>
    ensures order { result ≡ order_in (map string_bytes words.now) }
    ensures numbers { IfSome result HasNumbers }
{
    let (word, rest) = words.split_first()?;
    match word.as_str() {
        "run" => {
            let options = options_in(rest)?;
            Some(run_with(options))
        }
        "serial" => serial_with(options_in(rest)?),
        "check" => when_alone(rest),
        _ => None,
    }
}

/// Whether the words ask for a replay.
pub fn asks_replay(words: &[String]) -> bool
    ensures replay { result ≡ is_replay (map string_bytes words.now) }
    ensures no_order { result ≡ true → order_in (map string_bytes words.now) ≡ None }
{
    match words {
        [word] => word.as_str() == "replay",
        _ => false,
    }
}

/// The number of the generated script that the words ask to be made, if they ask for that.
pub fn number_to_make(words: &[String]) -> Option<u32>
    ensures number { result ≡ made_in (map string_bytes words.now) }
    ensures range { IfSome result (λ n. (1 ≤ n) × (n ≤ MOST_GENERATED)) }
    ensures no_order { IsSome result → order_in (map string_bytes words.now) ≡ None }
    ensures no_replay { IsSome result → is_replay (map string_bytes words.now) ≡ false }
{
    match words {
        [word, number] if word.as_str() == "make" => {
            number_in(MOST_GENERATED, number.as_str().as_bytes())
        }
        _ => None,
    }
}

fn run_with(options: Options) -> Order
    requires { HasRanges options }
    ensures order { result ≡ run_of options }
    ensures numbers { HasNumbers result }
{
    Order::Run {
        workers: options.workers.unwrap_or(WORKERS),
        cells: options.cells.unwrap_or(CELLS),
        calls: options.calls,
        journal: options.journal,
    }
}

/// A serial run takes no workers, no cells and no journal.
fn serial_with(options: Options) -> Option<Order>
    ensures order { result ≡ serial_of options }
    ensures numbers { IfSome result HasNumbers }
{
    if options.workers.is_some() || options.cells.is_some() || options.journal {
        return None;
    }
    Some(Order::Serial {
        calls: options.calls,
    })
}

/// The options of a run, in any order, each at most once.
fn options_in(words: &[String]) -> Option<Options>
    ensures options { result ≡ options_of (map string_bytes words.now) }
    ensures ranges { IfSome result HasRanges }
{
    let options = Options {
        workers: None,
        cells: None,
        calls: false,
        journal: false,
    };
    let awaits = None;
    options_from(Taken { options, awaits }, words)
}

/// The options that stand in the words, after those before them.
fn options_from(taken: Taken, words: &[String]) -> Option<Options>
    requires { HasRanges taken.options }
    ensures options { result ≡ options_after (Some taken) (map string_bytes words.now) }
    ensures ranges { IfSome result HasRanges }
{
    match words.split_first() {
        Some((word, rest)) => options_from(with_word(taken, word)?, rest),
        None => unless_awaiting(taken),
    }
}

/// The options, unless the number of one is missing.
fn unless_awaiting(taken: Taken) -> Option<Options>
    requires { HasRanges taken.options }
    ensures options { result ≡ unless_awaited taken.options taken.awaits }
    ensures ranges { IfSome result HasRanges }
{
    match taken.awaits {
        None => Some(taken.options),
        Some(_) => None,
    }
}

/// One word more: the number of the option that awaits one, else an option's word.
fn with_word(taken: Taken, word: &String) -> Option<Taken>
    requires { HasRanges taken.options }
    ensures taken { result ≡ after_word taken (string_bytes word.now) }
    ensures ranges { IfSome result (λ taken. HasRanges taken.options) }
{
    match taken.awaits {
        None => with_option(taken.options, word),
        Some(numbered) => {
            let options = with_number(taken.options, numbered, word)?;
            let awaits = None;
            Some(Taken { options, awaits })
        }
    }
}

/// An option's word, which stood nowhere before.
fn with_option(options: Options, word: &String) -> Option<Taken>
    requires { HasRanges options }
    ensures taken { result ≡ after_option options (string_bytes word.now) }
    ensures ranges { IfSome result (λ taken. HasRanges taken.options) }
{
    match word.as_str() {
        "--calls" if !options.calls => Some(Taken {
            options: Options {
                calls: true,
                ..options
            },
            awaits: None,
        }),
        "--journal" if !options.journal => Some(Taken {
            options: Options {
                journal: true,
                ..options
            },
            awaits: None,
        }),
        "--workers" if options.workers.is_none() => Some(Taken {
            options,
            awaits: Some(Numbered::Workers),
        }),
        "--cells" if options.cells.is_none() => Some(Taken {
            options,
            awaits: Some(Numbered::Cells),
        }),
        _ => None,
    }
}

/// The number of an option: from 1 to 64 workers, from 1 to 1,048,576 cells.
fn with_number(options: Options, numbered: Numbered, word: &String) -> Option<Options>
    requires { HasRanges options }
    ensures options { result ≡ after_number options numbered (string_bytes word.now) }
    ensures ranges { IfSome result HasRanges }
{
    let digits = word.as_str().as_bytes();
    match numbered {
        Numbered::Workers => Some(Options {
            workers: Some(number_in(MOST_WORKERS, digits)?),
            ..options
        }),
        Numbered::Cells => Some(Options {
            cells: Some(number_in(MOST_CELLS, digits)?),
            ..options
        }),
    }
}

/// A number from 1 to the greatest, in plain digits without a leading zero.
fn number_in(most: u32, digits: &[u8]) -> Option<u32>
    requires some { 9 ≤ most }
    requires small { most ≤ MOST_CELLS }
    ensures number { result ≡ number_of most digits.now }
    ensures range { IfSome result (λ number. (1 ≤ number) × (number ≤ most)) }
{
    let (digit, rest) = digits.split_first()?;
    if !(b'1'..=b'9').contains(digit) {
        return None;
    }
    number_from(most, u32::from(*digit - b'0'), rest)
}

/// The number that digits come to, after those before them.
fn number_from(most: u32, before: u32, digits: &[u8]) -> Option<u32>
    requires some { most ≤ MOST_CELLS }
    requires small { before ≤ most }
    ensures number { result ≡ number_after most before digits.now }
    ensures range { IfSome result (λ number. (before ≤ number) × (number ≤ most)) }
{
    let Some((digit, rest)) = digits.split_first() else {
        return Some(before);
    };
    if !digit.is_ascii_digit() {
        return None;
    }
    let number = 10 * before + u32::from(*digit - b'0');
    if number > most {
        return None;
    }
    number_from(most, number, rest)
}

/// The order without options.
fn when_alone(options: &[String]) -> Option<Order>
    ensures order { result ≡ alone (map string_bytes options.now) }
    ensures numbers { IfSome result HasNumbers }
{
    match options {
        [] => Some(Order::Check),
        _ => None,
    }
}
