//! Refusals of what was handed in.

ghost use Rattle.std.specs.Prelude.{◌≡◌, ◌≤◌, ◌++◌, codes, length};
ghost use Rattle.arrayvec.specs.ArrayString.{array_string_len};
ghost use Rattle.bank_files.specs.Told.{output_name};
ghost use Rattle.bank_files.specs.Seen.{Writes};
ghost use Rattle.formats.specs.Bytes.{line};
ghost use Rattle.formats.specs.Keys.{key_word};
ghost use Rattle.formats.specs.Options.{option_text};
ghost use Rattle.formats.specs.Refusals.{at_line, bad_word_line, fault_text, key_text, log_line, log_text, refusal_text, too_large};

use bank_files::{Failed, Files, OUTPUT, Text, push_number, write_text};
use formats::{KeyName, LineFault, Name, OptionName, Refusal};

/// Writes the line of a refusal to standard output.
pub fn write_refusal<F: Files>(files: &mut F, refusal: &Refusal) -> Result<(), Failed>
    ensures { Writes output_name (F.view files.old) (F.view files.new) (refusal_text refusal.now) result }
{
    write_text(files, OUTPUT, &text_of(refusal))
}

fn text_of(refusal: &Refusal) -> Text
    ensures { result.bytes ≡ refusal_text refusal.now }
{
    match refusal {
        Refusal::WordsUsage => line_of("words: usage"),
        Refusal::WordsBad { option } => bad_word(*option),
        Refusal::WordsEmptyRange => line_of("words: --to is before --from"),
        Refusal::ConfigTooLarge => line_of("configuration: too large"),
        Refusal::ConfigNotToml => line_of("configuration: not toml"),
        Refusal::ConfigMissing { key, receiver } => bad_key("missing ", *key, *receiver),
        Refusal::ConfigWrongKind { key, receiver } => bad_key("wrong kind ", *key, *receiver),
        Refusal::ConfigOutOfRange { key, receiver } => bad_key("out of range ", *key, *receiver),
        Refusal::ConfigUnknownKey => line_of("configuration: unknown key"),
        Refusal::LogTooLarge { receiver, name } => large_log(*receiver, name),
        Refusal::LogLine {
            receiver,
            name,
            line,
            fault,
        } => bad_line(*receiver, name, *line, *fault),
    }
}

// The line of these words.
fn line_of(words: &str) -> Text
    requires { length words.now ≤ 100 }
    ensures { result.bytes ≡ line words.now }
{
    let mut text = Text::new();
    text.push_str(words);
    text.push_str("\n");
    text
}

// Which value of the words is bad.
fn bad_word(option: OptionName) -> Text
    ensures { result.bytes ≡ bad_word_line (option_text option) }
{
    let mut text = Text::new();
    text.push_str("words: bad ");
    text.push_str(name_of_option(option));
    text.push_str("\n");
    text
}

fn name_of_option(option: OptionName) -> &'static str
    ensures name { result.now ≡ option_text option }
    ensures short { length result.now ≤ 10 }
{
    option.as_str()
}

// What is wrong with a key of the configuration.
fn bad_key(what: &str, key: KeyName, receiver: Option<u8>) -> Text
    requires { length what.now ≤ 20 }
    ensures { result.bytes ≡ line (codes "configuration: " ++ (what.now ++ key_text receiver (key_word key))) }
{
    let mut text = Text::new();
    text.push_str("configuration: ");
    text.push_str(what);
    push_key(&mut text, key, receiver);
    text.push_str("\n");
    text
}

// Adds a key, with the number of its receiver.
fn push_key(text: &mut Text, key: KeyName, receiver: Option<u8>)
    requires room { array_string_len text.old ≤ 100 }
    ensures bytes { text.new.bytes ≡ text.old.bytes ++ key_text receiver (key_word key) }
    ensures len { array_string_len text.new ≤ 200 }
{
    let Some(receiver) = receiver else {
        text.push_str(key.as_str());
        return;
    };
    text.push_str("receiver ");
    push_number(text, receiver as u64);
    text.push_str(" ");
    text.push_str(key.as_str());
}

// A log that is too large.
fn large_log(receiver: u8, name: &Name) -> Text
    ensures { result.bytes ≡ log_line receiver name.now too_large }
{
    let mut text = Text::new();
    push_log(&mut text, receiver, name);
    text.push_str("too large\n");
    text
}

// A bad line of a log.
fn bad_line(receiver: u8, name: &Name, line: u32, fault: LineFault) -> Text
    ensures { result.bytes ≡ log_line receiver name.now (at_line line (fault_text fault)) }
{
    let mut text = Text::new();
    push_log(&mut text, receiver, name);
    text.push_str("line ");
    push_number(&mut text, line as u64);
    text.push_str(": ");
    text.push_str(words_of(fault));
    text.push_str("\n");
    text
}

// Adds which log is refused.
fn push_log(text: &mut Text, receiver: u8, name: &Name)
    requires empty { array_string_len text.old ≡ 0 }
    ensures bytes { text.new.bytes ≡ text.old.bytes ++ log_text receiver name.now }
    ensures len { array_string_len text.new ≤ 100 }
{
    text.push_str("log ");
    push_number(text, receiver as u64);
    text.push_str(" ");
    text.push_str(name.as_str());
    text.push_str(": ");
}

// In what way a line is bad.
fn words_of(fault: LineFault) -> &'static str
    ensures words { result.now ≡ fault_text fault }
    ensures short { length result.now ≤ 32 }
{
    match fault {
        LineFault::Shape => "shape",
        LineFault::NotRising => "not rising",
        LineFault::TooManyRecords => "too many records",
    }
}
