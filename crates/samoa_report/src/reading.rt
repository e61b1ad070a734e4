//! The lines of a journal to its steps.
ghost use Rattle.std.specs.Prelude.{◌≡◌, ◌≢◌, ◌++◌, [], ◌∷◌, ◌+◌, ◌<◌, ◌≤◌, ◌^◌, ℕ, All, length, codes, decimal, IfOk, IfErr, IfSome, IfNone};
ghost use Rattle.samoa_model.specs.declared.record.Step.{Step as StepValue};
ghost use Rattle.samoa_report.specs.Steps.{step_text, steps_text};
ghost use Rattle.samoa_report.specs.StepFields.{FitsStep, fields, has_micro, letter_of, numbers as numbers_of, step_fields};
ghost use Rattle.samoa_report.specs.BadLine.{BeginsWithStep, Fails};

use crate::fault::StepsFault;
use itoa::Buffer;
use memchr::memchr;
use samoa_model::Step;
use std::alloc::Global;
use std::str::from_utf8;

/// The steps whose lines the text is. The empty text has no line.
///
/// `BadLine` comes exactly where the text is the lines of no steps, and names the first line, counted from 1, that is
/// the line of no step: it has another letter, another number of fields, a number with a leading zero or above
/// 4,294,967,295, or no line feed. `Memory` comes where there was none.
pub fn read_steps(alloc: Global, text: &[u8]) -> Result<Vec<Step>, StepsFault>
    requires { length text.now < 2 ^ 32 }
    ensures steps { IfOk result (λ steps. steps_text steps.items ≡ text.now) }
    ensures fit { IfOk result (λ steps. All FitsStep steps.items) }
    ensures fault { IfErr result (Fails text.now) }
{
    let mut steps = Vec::new(alloc);
    let mut rest = text;
    let mut line = 1;
    while !rest.is_empty() {
        let Some((step, after)) = first_step(rest) else {
            return Err(StepsFault::BadLine { line });
        };
        if steps.push(step).is_err() {
            return Err(StepsFault::Memory);
        }
        rest = after;
        line += 1;
    }
    Ok(steps)
}

/// The step whose line the text begins with, and what comes after that line.
fn first_step(text: &[u8]) -> Option<(Step, &[u8])>
    ensures some { IfSome result (λ first. text.now ≡ step_text first.0 ++ first.1.now) }
    ensures fits { IfSome result (λ first. FitsStep first.0) }
    ensures shorter { IfSome result (λ first. length first.1.now + 2 ≤ length text.now) }
    ensures none { IfNone result (¬ BeginsWithStep text.now) }
{
    let at = memchr(b'\n', text)?;
    let step = read_line(&text[..at])?;
    Some((step, &text[at + 1..]))
}

/// The step whose line this is, without its line feed.
fn read_line(line: &[u8]) -> Option<Step>
    ensures some { IfSome result (λ step. line.now ≡ step_fields step) }
    ensures fits { IfSome result FitsStep }
    ensures none { IfNone result ((step : StepValue) → FitsStep step → line.now ≢ step_fields step) }
{
    let [letter, b' ', numbers @ ..] = line else {
        return None;
    };
    let (comp, micro) = read_numbers(*letter == b'e' || *letter == b'r', numbers)?;
    step_of(*letter, comp, micro)
}

/// The step of a letter and its numbers.
fn step_of(letter: u8, comp: u32, micro: u32) -> Option<Step>
    ensures some { IfSome result (λ step. fields letter comp micro ≡ step_fields step) }
    ensures fits { IfSome result FitsStep }
    ensures none { IfNone result ((step : StepValue) → letter_of step ≢ letter) }
{
    match letter {
        b'a' => Some(Step::Admit { comp }),
        b'e' => Some(Step::Enter { comp, micro }),
        b'l' => Some(Step::Leave { comp }),
        b'b' => Some(Step::Abandon { comp }),
        b'r' => Some(Step::Release { comp, micro }),
        b'n' => Some(Step::End { comp }),
        _ => None,
    }
}

/// A computation's number, and where `paired` a microprotocol's after a space, else 0.
fn read_numbers(paired: bool, text: &[u8]) -> Option<(u32, u32)>
    ensures some { IfSome result (λ pair. text.now ≡ numbers_of paired pair.0 pair.1) }
    ensures none { IfNone result ((comp micro : ℕ) → comp < 2 ^ 32 → micro < 2 ^ 32 → text.now ≢ numbers_of paired comp micro) }
{
    if paired {
        read_pair(text)
    } else {
        Some((read_number(text)?, 0))
    }
}

/// Two numbers with a space between them.
fn read_pair(text: &[u8]) -> Option<(u32, u32)>
    ensures some { IfSome result (λ pair. text.now ≡ decimal pair.0 ++ codes " " ++ decimal pair.1) }
    ensures none { IfNone result ((m n : ℕ) → m < 2 ^ 32 → n < 2 ^ 32 → text.now ≢ decimal m ++ codes " " ++ decimal n) }
{
    let at = memchr(b' ', text)?;
    let comp = read_number(&text[..at])?;
    let micro = read_number(&text[at + 1..])?;
    Some((comp, micro))
}

/// The number that the digits print, of 32 bits and without leading zeros.
fn read_number(digits: &[u8]) -> Option<u32>
    ensures some { IfSome result (λ number. digits.now ≡ decimal number) }
    ensures none { IfNone result ((number : ℕ) → number < 2 ^ 32 → digits.now ≢ decimal number) }
{
    match read_numeral(digits) {
        Some(number) if Buffer::new().format(number).as_bytes() == digits => Some(number),
        _ => None,
    }
}

/// The value of digits, of 32 bits, perhaps after a plus or zeros.
fn read_numeral(digits: &[u8]) -> Option<u32>
    ensures decimal { (number : ℕ) → number < 2 ^ 32 → digits.now ≡ decimal number → result ≡ Some number }
{
    match from_utf8(digits) {
        Ok(text) => text.parse().ok(),
        Err(_) => None,
    }
}
