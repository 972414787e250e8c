// Lines on labels: N H E 0 TEXT, or N H E R where the call is refused with R.
use crate::bits::{after, at};
use crate::calls::same_refusal;
use float::FloatPrettyPrinter;
use ranged1d::Refusal;

// Whether the last word of the line is this text, which has no blank.
fn ends_with(line: &[u8], text: &[u8]) -> bool {
    line.strip_suffix(text)
        .is_some_and(|rest| rest.ends_with(b" "))
}

// Whether a call that prints answers as the line has it.
fn same_label<F: FnOnce(FloatPrettyPrinter, f64, &mut [u8]) -> Result<usize, Refusal>>(
    line: &[u8],
    numbers: &[u64],
    print: F,
) -> bool
    requires { F.IsAlwaysCallable print }
{
    let printer = FloatPrettyPrinter {
        min_decimal: at(numbers, 2),
        max_decimal: at(numbers, 1),
    };
    let words = after(numbers, 3);
    let mut out = [0u8; 38];
    match print(printer, at(numbers, 0), &mut out) {
        Err(r) => same_refusal(words, r),
        Ok(k) => match (words, out.get(..k)) {
            ([0, _, ..], Some(text)) => ends_with(line, text),
            _ => false,
        },
    }
}

pub(crate) fn label(line: &[u8], numbers: &[u64]) -> bool {
    same_label(line, numbers, |printer, x, out| printer.print(x, out))
}

pub(crate) fn scientific(line: &[u8], numbers: &[u64]) -> bool {
    same_label(
        line,
        numbers,
        |printer, x, out| printer.print_scientific(x, out),
    )
}
