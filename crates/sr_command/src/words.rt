//! The words of the command line.

ghost use Rattle.std.specs.Option.{ForSome};
ghost use Rattle.std.specs.Prelude.{◌≡◌, ◌≤◌, map, option_map, string_bytes, IfSome};
ghost use Rattle.std.specs.Str.{bytes_eq};
ghost use Rattle.std.specs.Fmt.{decimal};
ghost use Rattle.rv_model.specs.Run.{FlipFits};
ghost use Rattle.sr_command.specs.Words.{form_of, two_words, three_words, four_words, seven_words, is_name, number_of, within, flip_of, input_of, execution, evaluation};
ghost use Rattle.sr_command.specs.Commands.{meant, word_bytes, HasGoodFlip};

use itoa::Buffer;
use rv_model::Flip;

/// What the words ask for. Names are words of the command line.
#[derive(Clone, Copy, Debug)]
pub enum Command<'a> {
    /// `compile IN OUT`: compiles the text in the file IN, and writes the executable to OUT.
    Compile {
        input: &'a str,
        output: &'a str,
    },
    /// `run EXE INPUT STEPS` and, with a flip, `flip EXE INPUT STEPS N R B`: runs the executable in the file
    /// EXE for at most so many instructions, on the input in a file or on the empty one.
    Execute {
        program: &'a str,
        input: Option<&'a str>,
        steps: u64,
        flip: Option<Flip>,
    },
    /// `eval IN INPUT STEPS`: evaluates the module of the text in the file IN for at most so many steps, on the
    /// input in a file or on the empty one.
    Evaluate {
        text: &'a str,
        input: Option<&'a str>,
        steps: u64,
    },
    /// `disasm EXE`: lists the words of the executable in the file EXE.
    Disasm {
        program: &'a str,
    },
    /// `print IN`: prints the module of the text in the file IN.
    Print {
        input: &'a str,
    },
}

/// Tells whether a word names a file: it is neither empty nor `-`.
fn is_name(word: &str) -> bool
    ensures { result ≡ is_name word.now }
{
    word != "" && word != "-"
}

/// Tells whether the word is the number in decimal.
fn is_decimal(number: u32, word: &str) -> bool
    ensures { result ≡ bytes_eq word.now (decimal number) }
{
    let mut buffer = Buffer::new();
    word == buffer.format(number)
}

/// Returns the number that the word is in decimal, without a sign and without a zero before it.
fn number_of(word: &str) -> Option<u32>
    ensures { result ≡ number_of word.now }
{
    match word.parse::<u32>() {
        Ok(number) if is_decimal(number, word) => Some(number),
        _ => None,
    }
}

/// Returns the number of a word that is from `low` to `high`.
fn number_within(low: u8, high: u8, word: &str) -> Option<u8>
    ensures value { result ≡ within low high (number_of word.now) }
    ensures low { IfSome result (λ n. low ≤ n) }
    ensures high { IfSome result (λ n. n ≤ high) }
{
    match number_of(word) {
        Some(number) if u32::from(low) <= number && number <= u32::from(high) => Some(number as u8),
        _ => None,
    }
}

/// Returns the flip of three words.
fn flip_of(at: &str, reg: &str, bit: &str) -> Option<Flip>
    ensures value { result ≡ flip_of at.now reg.now bit.now }
    ensures fits { ForSome result FlipFits }
{
    match (
        number_of(at),
        number_within(1, 31, reg),
        number_within(0, 63, bit),
    ) {
        (Some(at), Some(reg), Some(bit)) => Some(Flip {
            at: u64::from(at),
            reg,
            bit,
        }),
        _ => None,
    }
}

/// Returns the name of the input's file, which `-` has none.
fn input_of(word: &str) -> Option<&str>
    ensures { word_bytes result ≡ input_of word.now }
{
    if word == "-" { None } else { Some(word) }
}

/// Returns the command of EXE, INPUT and STEPS, with a flip or with none.
fn parse_execution<'a>(
    program: &'a str,
    input: &'a str,
    steps: &str,
    flip: Option<Flip>,
) -> Option<Command<'a>>
    requires { ForSome flip FlipFits }
    ensures meant { option_map meant result ≡ execution program.now input.now
        (number_of steps.now) flip }
    ensures fits { IfSome result HasGoodFlip }
{
    match number_of(steps) {
        Some(steps) if is_name(program) && input != "" => Some(Command::Execute {
            program,
            input: input_of(input),
            steps: u64::from(steps),
            flip,
        }),
        _ => None,
    }
}

/// Returns the command of IN, INPUT and STEPS.
fn parse_evaluation<'a>(text: &'a str, input: &'a str, steps: &str) -> Option<Command<'a>>
    ensures meant { option_map meant result ≡ evaluation text.now input.now (number_of steps.now) }
    ensures fits { IfSome result HasGoodFlip }
{
    match number_of(steps) {
        Some(steps) if is_name(text) && input != "" => Some(Command::Evaluate {
            text,
            input: input_of(input),
            steps: u64::from(steps),
        }),
        _ => None,
    }
}

/// Parses the command of a name and one more word.
fn parse_two<'a>(command: &str, file: &'a str) -> Option<Command<'a>>
    ensures meant { option_map meant result ≡ two_words command.now file.now }
    ensures fits { IfSome result HasGoodFlip }
{
    if command == "disasm" && is_name(file) {
        Some(Command::Disasm { program: file })
    } else if command == "print" && is_name(file) {
        Some(Command::Print { input: file })
    } else {
        None
    }
}

/// Parses the command of a name and two more words.
fn parse_three<'a>(command: &'a str, first: &'a str, second: &'a str) -> Option<Command<'a>>
    ensures meant { option_map meant result ≡ three_words command.now first.now second.now }
    ensures fits { IfSome result HasGoodFlip }
{
    if command == "compile" && is_name(first) && is_name(second) {
        Some(Command::Compile {
            input: first,
            output: second,
        })
    } else {
        None
    }
}

/// Returns the command of a name, a file, INPUT and STEPS.
fn parse_four<'a>(command: &str, file: &'a str, input: &'a str, steps: &str) -> Option<Command<'a>>
    ensures meant { option_map meant result
        ≡ four_words command.now file.now input.now steps.now }
    ensures fits { IfSome result HasGoodFlip }
{
    if command == "run" {
        parse_execution(file, input, steps, None)
    } else if command == "eval" {
        parse_evaluation(file, input, steps)
    } else {
        None
    }
}

/// Returns the command of a name, EXE, INPUT, STEPS and a flip.
fn parse_seven<'a>(
    command: &str,
    program: &'a str,
    input: &'a str,
    steps: &str,
    flip: Option<Flip>,
) -> Option<Command<'a>>
    requires { ForSome flip FlipFits }
    ensures meant { option_map meant result ≡ seven_words command.now program.now input.now
        steps.now flip }
    ensures fits { IfSome result HasGoodFlip }
{
    if command == "flip" && flip.is_some() {
        parse_execution(program, input, steps, flip)
    } else {
        None
    }
}

/// Parses the command that the words are, without the program's name; `None` where they have none of the
/// forms.
pub fn parse_words(words: &[String]) -> Option<Command<'_>>
    ensures meant { option_map meant result ≡ form_of (map string_bytes words.now) }
    ensures fits { IfSome result HasGoodFlip }
{
    match words {
        [command, file] => parse_two(command.as_str(), file.as_str()),
        [command, first, second] => {
            parse_three(command.as_str(), first.as_str(), second.as_str())
        }
        [command, file, input, steps] => parse_four(
            command.as_str(),
            file.as_str(),
            input.as_str(),
            steps.as_str(),
        ),
        [command, program, input, steps, at, reg, bit] => parse_seven(
            command.as_str(),
            program.as_str(),
            input.as_str(),
            steps.as_str(),
            flip_of(at.as_str(), reg.as_str(), bit.as_str()),
        ),
        _ => None,
    }
}
