// The words behind the program's name: a command, options with their values, plain words.
#![tactic(auto)]

pub mod scales;

ghost use Rattle.std.specs.Prelude.{◌≤◌, ◌<◌};

use std::env::FillError;
use std::io::IsTerminal;
use tool_io::names::named;
use tool_io::words;

// What to do; its word is the first.
#[derive(Clone, Copy)]
pub enum Command {
    List,
    Draw,
    Tidy,
    Check,
    Show,
    Info,
    Same,
    Motions,
    Table,
    Scan,
    Picture,
    Help,
    Version,
    Unknown,
}

// What a word behind the command is.
#[derive(Clone, Copy)]
enum Word {
    Output,
    Kind,
    Rungs,
    Table,
    Unknown,
    Plain,
}

// The numbers of the words that name the output, the kind and the sink table and that ask for the rungs climbed, if there are such words; and
// whether an option is wrong.
#[derive(Clone, Copy)]
pub struct Options {
    pub output: Option<usize>,
    pub kind: Option<usize>,
    pub rungs: Option<usize>,
    pub table: Option<usize>,
    pub wrong: bool,
}

// Commands that make bytes of one file.
fn file_command(word: &[u8]) -> Command {
    if check::same(word, b"list") {
        return Command::List;
    }
    if check::same(word, b"draw") {
        return Command::Draw;
    }
    if check::same(word, b"tidy") {
        return Command::Tidy;
    }
    if check::same(word, b"scan") {
        return Command::Scan;
    }
    if check::same(word, b"picture") {
        return Command::Picture;
    }
    Command::Unknown
}

// Commands that tell of files.
fn telling_command(word: &[u8]) -> Command {
    if check::same(word, b"check") {
        return Command::Check;
    }
    if check::same(word, b"show") {
        return Command::Show;
    }
    if check::same(word, b"info") {
        return Command::Info;
    }
    if check::same(word, b"same") {
        return Command::Same;
    }
    if check::same(word, b"motions") {
        return Command::Motions;
    }
    if check::same(word, b"table") {
        return Command::Table;
    }
    file_command(word)
}

fn command_of(word: &[u8]) -> Command {
    if check::same(word, b"--help") {
        return Command::Help;
    }
    if check::same(word, b"-h") {
        return Command::Help;
    }
    if check::same(word, b"help") {
        return Command::Help;
    }
    if check::same(word, b"--version") {
        return Command::Version;
    }
    telling_command(word)
}

pub fn given_command(rt: &HostRuntime) -> Command {
    let mut word = [0u8; 16];
    let n = words::fetch(rt, 1, &mut word).unwrap_or(0);
    command_of(&word[..n])
}

// ---- options

fn is_letter(byte: u8) -> bool {
    byte.is_ascii_lowercase()
}

// Whether a word looks like an option: one or two dashes and a letter. A number or a dash alone does not.
fn looks_like_option(text: &[u8]) -> bool {
    if text.len() < 3 {
        if text.len() < 2 {
            return false;
        }
        if text[0] != b'-' {
            return false;
        }
        return is_letter(text[1]);
    }
    if text[0] != b'-' {
        return false;
    }
    if is_letter(text[1]) {
        return true;
    }
    if text[1] != b'-' {
        return false;
    }
    is_letter(text[2])
}

fn word_of(text: &[u8]) -> Word {
    if check::same(text, b"-o") {
        return Word::Output;
    }
    if check::same(text, b"--kind") {
        return Word::Kind;
    }
    if check::same(text, b"--rungs") {
        return Word::Rungs;
    }
    if check::same(text, b"--table") {
        return Word::Table;
    }
    if looks_like_option(text) {
        return Word::Unknown;
    }
    Word::Plain
}

fn word_at(rt: &HostRuntime, number: usize) -> Word {
    let mut text = [0u8; 32];
    match words::fetch(rt, number, &mut text) {
        Ok(n) => word_of(&text[..n]),
        Err(FillError::NotPresent) => word_of(b""),
        Err(FillError::TooLong) => long_word(&text),
    }
}

// A word that is longer than every option, by its beginning.
fn long_word(text: &[u8]) -> Word {
    if looks_like_option(text) {
        return Word::Unknown;
    }
    Word::Plain
}

// The number of the next word: behind an option's value, where it has one.
fn next(word: Word, number: usize, count: usize) -> usize
    requires { number < count }
    ensures { (number < result) × (result ≤ count) }
{
    match word {
        Word::Output => behind_value(number, count),
        Word::Kind => behind_value(number, count),
        Word::Table => behind_value(number, count),
        Word::Rungs => number + 1,
        Word::Unknown => number + 1,
        Word::Plain => number + 1,
    }
}

fn behind_value(number: usize, count: usize) -> usize
    requires { number < count }
    ensures { (number < result) × (result ≤ count) }
{
    if count - number < 2 {
        return count;
    }
    number + 2
}

// The number of the value of the option with a number, if it is there.
fn value_of(number: usize, count: usize) -> Option<usize>
    requires { number < count }
{
    if count - number < 2 {
        None
    } else {
        Some(number + 1)
    }
}

// A value that is missing, or an option that stands twice, is wrong.
fn is_wrong(options: Options, before: Option<usize>, value: Option<usize>) -> bool {
    value.is_none() || before.is_some() || options.wrong
}

fn with_output(options: Options, output: Option<usize>) -> Options {
    Options {
        output,
        wrong: is_wrong(options, options.output, output),
        ..options
    }
}

fn with_kind(options: Options, kind: Option<usize>) -> Options {
    Options {
        kind,
        wrong: is_wrong(options, options.kind, kind),
        ..options
    }
}

fn with_table(options: Options, table: Option<usize>) -> Options {
    Options {
        table,
        wrong: is_wrong(options, options.table, table),
        ..options
    }
}

fn with_rungs(options: Options, rungs: Option<usize>) -> Options {
    Options {
        rungs,
        wrong: is_wrong(options, options.rungs, rungs),
        ..options
    }
}

fn with_word(options: Options, word: Word, number: usize, count: usize) -> Options
    requires { number < count }
{
    match word {
        Word::Output => with_output(options, value_of(number, count)),
        Word::Kind => with_kind(options, value_of(number, count)),
        Word::Table => with_table(options, value_of(number, count)),
        Word::Rungs => with_rungs(options, Some(number)),
        Word::Unknown => Options {
            wrong: true,
            ..options
        },
        Word::Plain => options,
    }
}

// The options behind the command.
pub fn given_options(rt: &HostRuntime) -> Options {
    let count = words::count(rt);
    let mut options = Options {
        output: None,
        kind: None,
        rungs: None,
        table: None,
        wrong: false,
    };
    let mut i = 2;
    while i < count {
        let word = word_at(rt, i);
        options = with_word(options, word, i, count);
        i = next(word, i, count);
    }
    options
}

// ---- plain words

fn is_plain(word: Word) -> bool {
    matches!(word, Word::Plain)
}

// The number of a plain word behind the command, the first being 0, if there are so many.
pub fn plain_word(rt: &HostRuntime, which: usize) -> Option<usize> {
    let count = words::count(rt);
    let mut left = which;
    let mut i = 2;
    while i < count {
        let word = word_at(rt, i);
        if is_plain(word) {
            if left == 0 {
                return Some(i);
            }
            left -= 1;
        }
        i = next(word, i, count);
    }
    None
}

// ---- what a command takes

// Whether a command gives motions, and so has a scale before its input.
pub fn is_motions(command: Command) -> bool {
    matches!(command, Command::Motions)
}

// Which plain word is the first input.
pub fn first_input(command: Command) -> usize
    ensures { result ≤ 3 }
{
    if is_motions(command) { 3 } else { 0 }
}

// Whether there are as many plain words as a command takes.
fn fits_plain(rt: &HostRuntime, command: Command) -> bool {
    match command {
        Command::Motions => plain_word(rt, 2).is_some() && plain_word(rt, 4).is_none(),
        Command::Same => plain_word(rt, 1).is_some() && plain_word(rt, 2).is_none(),
        Command::Check => true,
        Command::Show => true,
        Command::Info => true,
        Command::List => plain_word(rt, 1).is_none(),
        Command::Draw => plain_word(rt, 1).is_none(),
        Command::Tidy => plain_word(rt, 1).is_none(),
        Command::Scan => plain_word(rt, 1).is_none(),
        Command::Picture => plain_word(rt, 1).is_none(),
        Command::Table => plain_word(rt, 1).is_none(),
        Command::Help => true,
        Command::Version => true,
        Command::Unknown => true,
    }
}

// Whether a command makes a scan, which has a kind.
fn makes_scan(command: Command) -> bool {
    matches!(command, Command::Scan)
}

// Whether a command climbs rungs and counts them.
fn makes_list(command: Command) -> bool {
    matches!(command, Command::List | Command::Tidy)
}

// Whether a sink table stands where it means something, and is not read from where the job is.
fn fits_table(rt: &HostRuntime, command: Command, options: Options) -> bool {
    options.table.is_none()
        || (is_motions(command)
            && (named(rt, options.table).is_some()
                || named(rt, plain_word(rt, first_input(command))).is_some()))
}

// Whether each option stands where it means something.
fn fits_options(rt: &HostRuntime, command: Command, options: Options) -> bool {
    !options.wrong
        && (options.kind.is_none() || makes_scan(command))
        && (options.rungs.is_none() || makes_list(command))
        && fits_table(rt, command, options)
}

// Without a name the input is standard input, but nobody is kept waiting at a terminal.
fn fits_input(rt: &HostRuntime, command: Command) -> bool {
    if plain_word(rt, first_input(command)).is_some() {
        return true;
    }
    if rt.stdin().is_terminal() {
        return false;
    }
    scales::is_complete(rt, command)
}

// Whether a command was given what it takes.
pub fn fits(rt: &HostRuntime, command: Command, options: Options) -> bool {
    fits_options(rt, command, options) && fits_plain(rt, command) && fits_input(rt, command)
}

pub fn is_same(command: Command) -> bool {
    match command {
        Command::Same => true,
        Command::List => false,
        Command::Draw => false,
        Command::Tidy => false,
        Command::Check => false,
        Command::Show => false,
        Command::Info => false,
        Command::Motions => false,
        Command::Table => false,
        Command::Scan => false,
        Command::Picture => false,
        Command::Help => false,
        Command::Version => false,
        Command::Unknown => false,
    }
}

// The kind that is asked for: 4 or 8, 8 where nothing is said; none where it is another word.
pub fn given_kind(rt: &HostRuntime, options: Options) -> Option<u8> {
    let Some(number) = options.kind else {
        return Some(8);
    };
    let mut word = [0u8; 2];
    let n = words::fetch(rt, number, &mut word).unwrap_or(0);
    match &word[..n] {
        [b'4'] => Some(4),
        [b'8'] => Some(8),
        _ => None,
    }
}
