//! The words of the command line.
ghost use Rattle.std.specs.Prelude.{◌≡◌, ◌≤◌, ◌+◌, ◌&&◌, length, map, take, drop, true, Some, None, IfOk, IfErr, IfSome, if◌then◌else◌, codes, option_map};
ghost use Rattle.std.specs.String.{string_bytes};
ghost use Rattle.cell_world.specs.Keys.{is_among};
ghost use Rattle.script_lang.specs.CommandLine.{options_built, is_folder, has_workloads, first_is, first_number, first_folder, can_follow, IsWorkload, AreLocations, SaysRest, SaysWords, IsBadAt, IsAccepted, IsAcceptedRest, IsWordsFault, IsNear, moved_by};
ghost use Rattle.script_lang.specs.declared.command_line.WordsFault.TheVariants as fault;

use crate::numbers::number_within;
use crate::programs::Program;
use cell_world::items::Items;
use cell_world::limits::MOST_LOCATIONS;
use cell_world::locations::Location;
use cell_world::memory::Memory;
use std::alloc::Global;
use thiserror::Error;

/// The longest name of a folder, in bytes.
const FOLDER_BYTES: usize = 255;

/// The most mappings of a workload. The least is 1.
const MOST_MAPPINGS: u64 = 2_000;

/// Which options are in force.
#[derive(Clone, Copy, Debug, PartialEq, Eq)]
pub struct Options {
    /// `--store FOLDER`.
    pub store: bool,
    /// `--workload SEED --count COUNT`, in `shardctl` alone.
    pub workload: bool,
}

/// The options that are built so far: that of a store.
pub const OPTIONS_BUILT: Options = Options {
    store: true,
    workload: false,
};

/// A script that is made from a number.
#[derive(Clone, Copy, Debug, PartialEq, Eq)]
pub struct Workload {
    /// The number that it is made from.
    pub seed: u64,
    /// How many mappings it adds, from 1 to 2,000.
    pub count: u32,
}

/// What the words say.
#[derive(Drop)]
pub struct Words {
    /// Where the stores are kept as files: 1 to 255 bytes.
    pub folder: Option<Items<u8>>,
    pub workload: Option<Workload>,
    /// At most 64, none twice, in the order given; at least two where there is a workload.
    pub locations: Items<Location>,
}

/// Why words weren't read.
#[derive(Debug, Drop, Clone, Copy, PartialEq, Eq, Error)]
pub enum WordsFault {
    /// The number, from 1, of the first word at which no accepted list goes on; or one more than there are words, where the list ends too early.
    #[error("bad words at {0}")]
    At(u32),
    /// Want of memory.
    #[error("out of memory")]
    Memory,
}

/// What stands behind the store.
#[derive(Drop)]
struct Rest {
    workload: Option<Workload>,
    locations: Items<Location>,
}

/// The fault of a list that begins so many words earlier.
fn moved_by(count: u32, fault: WordsFault) -> WordsFault
    requires near { IsNear 100 fault }
    requires few { count ≤ 4 }
    ensures { result ≡ moved_by count fault }
{
    match fault {
        WordsFault::At(place) => WordsFault::At(count + place),
        WordsFault::Memory => WordsFault::Memory,
    }
}

/// Whether the first word is this one.
fn first_is(words: &[&[u8]], wanted: &[u8]) -> bool
    ensures { result ≡ first_is wanted.now (map (λ w. w.now) words.now) }
{
    match words {
        [first, ..] => *first == wanted,
        [] => false,
    }
}

/// Whether the first word is this option, and it is in force.
fn has_option(in_force: bool, words: &[&[u8]], option: &[u8]) -> bool
    ensures { result ≡ (in_force && first_is option.now (map (λ w. w.now) words.now)) }
{
    in_force && first_is(words, option)
}

/// The words behind the first so many.
fn behind<'a>(words: &'a [&'a [u8]], count: usize) -> &'a [&'a [u8]]
    ensures { map (λ w. w.now) result.now ≡ drop count (map (λ w. w.now) words.now) }
{
    if count <= words.len() {
        &words[count..]
    } else {
        &[]
    }
}

/// The number that the first word is.
fn first_number(words: &[&[u8]], least: u64, most: u64) -> Option<u64>
    ensures value { result ≡ first_number least most (map (λ w. w.now) words.now) }
    ensures range { IfSome result (λ n. (least ≤ n) × (n ≤ most)) }
{
    match words {
        [first, ..] => number_within(first, least, most),
        [] => None,
    }
}

fn is_folder(word: &[u8]) -> bool
    ensures { result ≡ is_folder word.now }
{
    match word {
        [first, ..] => *first != b'-' && word.len() <= FOLDER_BYTES,
        [] => false,
    }
}

/// The folder that the first word is.
fn first_folder<'a>(words: &'a [&'a [u8]]) -> Option<&'a [u8]>
    ensures { option_map (λ folder. folder.now) result ≡ first_folder (map (λ w. w.now) words.now) }
{
    match words {
        [first, ..] => if is_folder(first) { Some(*first) } else { None },
        [] => None,
    }
}

fn is_among(locations: &[Location], word: &[u8]) -> bool
    ensures { result ≡ is_among locations.now word.now }
{
    for location in locations {
        if word.cmp(location.as_slice()).is_eq() {
            return true;
        }
    }
    false
}

/// The location that a word is, where it may stand behind these.
fn next_location(locations: &[Location], word: &[u8]) -> Option<Location>
    ensures { result ≡ (if can_follow locations.now word.now then Some word.now else None) }
{
    if locations.len() >= MOST_LOCATIONS {
        return None;
    }
    if is_among(locations, word) {
        return None;
    }
    Location::read(word)
}

/// The place behind these locations.
fn place_behind(locations: &[Location]) -> WordsFault
    requires { length locations.now ≤ 64 }
    ensures { result ≡ fault.At (length locations.now + 1) }
{
    WordsFault::At(locations.len() as u32 + 1)
}

/// Locations to the end of the words.
fn read_locations(
    alloc: Global,
    least: usize,
    words: &[&[u8]],
) -> Result<Items<Location>, WordsFault>
    requires { least ≤ 2 }
    ensures these { IfOk result (λ found. found ≡ map (λ w. w.now) words.now) }
    ensures ok { IfOk result (AreLocations least) }
    ensures err { IfErr result (IsWordsFault (AreLocations least) (map (λ w. w.now) words.now)) }
    ensures near { IfErr result (IsNear 65) }
{
    let mut found = Items::new(alloc);
    for word in words {
        match next_location(found.as_slice(), word) {
            Some(location) => match found.push(location) {
                Ok(()) => (),
                Err(_) => return Err(WordsFault::Memory),
            },
            None => return Err(place_behind(found.as_slice())),
        }
    }
    if found.as_slice().len() < least {
        return Err(place_behind(found.as_slice()));
    }
    Ok(found)
}

/// The workload of words that begin with `--workload`; or the place of the first word that is bad.
fn read_workload(words: &[&[u8]]) -> Result<Workload, u32>
    requires { first_is (codes "--workload") (map (λ w. w.now) words.now) ≡ true }
    ensures ok { IfOk result (IsWorkload true (take 4 (map (λ w. w.now) words.now))) }
    ensures err { IfErr result (IsBadAt (IsAcceptedRest true) (map (λ w. w.now) words.now)) }
    ensures near { IfErr result (λ place. place ≤ 4) }
{
    let Some(seed) = first_number(behind(words, 1), 0, u64::MAX) else {
        return Err(2);
    };
    if !first_is(behind(words, 2), b"--count") {
        return Err(3);
    }
    let Some(count) = first_number(behind(words, 3), 1, MOST_MAPPINGS) else {
        return Err(4);
    };
    Ok(Workload {
        seed,
        count: count as u32,
    })
}

/// Words that begin with `--workload`, where that is in force.
fn read_worked(alloc: Global, words: &[&[u8]]) -> Result<Rest, WordsFault>
    requires { first_is (codes "--workload") (map (λ w. w.now) words.now) ≡ true }
    ensures ok { IfOk result (λ rest. SaysRest true (map (λ w. w.now) words.now) rest.workload rest.locations) }
    ensures err { IfErr result (IsWordsFault (IsAcceptedRest true) (map (λ w. w.now) words.now)) }
    ensures near { IfErr result (IsNear 69) }
{
    let workload = match read_workload(words) {
        Ok(workload) => workload,
        Err(place) => return Err(WordsFault::At(place)),
    };
    match read_locations(alloc, 2, behind(words, 4)) {
        Ok(locations) => Ok(Rest {
            workload: Some(workload),
            locations,
        }),
        Err(fault) => Err(moved_by(4, fault)),
    }
}

/// What stands behind the store: a workload or none, and then locations.
fn read_rest(alloc: Global, in_force: bool, words: &[&[u8]]) -> Result<Rest, WordsFault>
    ensures ok { IfOk result (λ rest. SaysRest in_force (map (λ w. w.now) words.now) rest.workload rest.locations) }
    ensures err { IfErr result (IsWordsFault (IsAcceptedRest in_force) (map (λ w. w.now) words.now)) }
    ensures near { IfErr result (IsNear 69) }
{
    if has_option(in_force, words, b"--workload") {
        return read_worked(alloc, words);
    }
    match read_locations(alloc, 0, words) {
        Ok(locations) => Ok(Rest {
            workload: None,
            locations,
        }),
        Err(fault) => Err(fault),
    }
}

fn has_workloads(program: Program, options: Options) -> bool
    ensures { result ≡ has_workloads program options }
{
    match program {
        Program::Ctl => options.workload,
        Program::Mux => false,
    }
}

/// Words that begin with `--store`, where that is in force.
fn read_stored(
    alloc: Global,
    program: Program,
    options: Options,
    words: &[&[u8]],
) -> Result<Words, WordsFault>
    requires allowed { options.store ≡ true }
    requires first { first_is (codes "--store") (map (λ w. w.now) words.now) ≡ true }
    ensures ok { IfOk result (SaysWords program options (map (λ w. w.now) words.now)) }
    ensures err { IfErr result (IsWordsFault (IsAccepted program options) (map (λ w. w.now) words.now)) }
    ensures near { IfErr result (IsNear 71) }
{
    let Some(folder) = first_folder(behind(words, 1)) else {
        return Err(WordsFault::At(2));
    };
    let rest = match read_rest(alloc, has_workloads(program, options), behind(words, 2)) {
        Ok(rest) => rest,
        Err(fault) => return Err(moved_by(2, fault)),
    };
    let Ok(folder) = Vec::from_slice(alloc, folder) else {
        return Err(WordsFault::Memory);
    };
    Ok(Words {
        folder: Some(Items::from_vec(folder)),
        workload: rest.workload,
        locations: rest.locations,
    })
}

/// Reads words where these options are in force.
pub fn read_with(
    alloc: Global,
    program: Program,
    options: Options,
    words: &[&[u8]],
) -> Result<Words, WordsFault>
    ensures ok { IfOk result (SaysWords program options (map (λ w. w.now) words.now)) }
    ensures err { IfErr result (IsWordsFault (IsAccepted program options) (map (λ w. w.now) words.now)) }
    ensures near { IfErr result (IsNear 71) }
{
    if has_option(options.store, words, b"--store") {
        return read_stored(alloc, program, options, words);
    }
    match read_rest(alloc, has_workloads(program, options), words) {
        Ok(rest) => Ok(Words {
            folder: None,
            workload: rest.workload,
            locations: rest.locations,
        }),
        Err(fault) => Err(fault),
    }
}

/// The bytes of each word.
fn bytes_of(alloc: Global, words: &Vec<String>) -> Result<Vec<&[u8]>, Memory>
    ensures { IfOk result (λ found. map (λ w. w.now) found.items ≡ map string_bytes words.now.items) }
{
    let mut found = Vec::new(alloc);
    for word in words {
        match found.push(word.as_bytes()) {
            Ok(()) => (),
            Err(_) => return Err(Memory),
        }
    }
    Ok(found)
}

/// Reads the words of a command line, without the program's name.
///
/// docs/COMMANDS.md has the grammar. `At` has the place of the first word that is bad; it is at most 71. A word that isn't UTF-8 is in no grammar: hand it in as the empty word, which is in
/// none either. Takes memory for the words, and nothing else is done.
pub fn read_words(alloc: Global, words: &Vec<String>, program: Program) -> Result<Words, WordsFault>
    ensures ok { IfOk result (SaysWords program options_built (map string_bytes words.now.items)) }
    ensures err { IfErr result (IsWordsFault (IsAccepted program options_built) (map string_bytes words.now.items)) }
    ensures near { IfErr result (IsNear 71) }
{
    match bytes_of(alloc, words) {
        Ok(bytes) => read_with(alloc, program, OPTIONS_BUILT, &bytes),
        Err(Memory) => Err(WordsFault::Memory),
    }
}
