//! What docs/OPERATING.md says of a crash in the middle of a runbook, at each moment of it.
use cell_world::outside::World;
use script_lang::command_line::read_words;
use script_lang::programs::Program;
use script_shell::shell::run_script;
use std::alloc::Global;
use std::test::Fail;
use world_memory::source::MemorySource;
use world_memory::world::MemoryWorld;

/// The locations of the runbooks.
fn locations(alloc: Global) -> Result<Vec<String>, Fail> {
    let mut words: Vec<String> = Vec::new(alloc);
    for word in ["s/a", "s/b", "s/c"] {
        words.push(format!(in alloc; "{word}")?)?;
    }
    Ok(words)
}

/// The world after a script.
fn run_over(alloc: Global, world: MemoryWorld, script: &[u8]) -> Result<MemoryWorld, Fail> {
    let words = locations(alloc)?;
    let mut source = MemorySource::new(script.to_vec(alloc)?);
    let (_finish, world) = run_script(alloc, &words, world, &mut source);
    Ok(world)
}

/// The world after a script over empty stores.
fn run_anew(alloc: Global, script: &[u8]) -> Result<MemoryWorld, Fail> {
    let words = locations(alloc)?;
    let Ok(says) = read_words(alloc, &words, Program::Ctl) else {
        return Err(Fail::from("no locations"));
    };
    let world = MemoryWorld::new(alloc, says.locations.as_slice())?;
    run_over(alloc, world, script)
}

/// What a new run of the script writes after a crash at the moment.
fn told_after(
    alloc: Global,
    world: &MemoryWorld,
    moment: u64,
    script: &[u8],
) -> Result<Vec<u8>, Fail> {
    if moment > world.moment() {
        return Err(Fail::from("no moment"));
    }
    let after = run_over(alloc, world.crashed(alloc, moment)?, script)?;
    Ok(after.output(alloc)?)
}

/// One script, and another behind it.
fn joined(alloc: Global, first: &[u8], second: &[u8]) -> Result<Vec<u8>, Fail> {
    let mut script = first.to_vec(alloc)?;
    script.extend_from_slice(second)?;
    Ok(script)
}

const FIRST: &[u8] = b"map orders range int
shard orders s/a
shard orders s/b
shard orders s/c
add orders 0 1000 s/a
add orders 1000 2000 s/b
add orders 2000 max s/c
";

const LOOK: &[u8] = b"shards orders
list orders
";

const FIRST_DONE: &[u8] = b"shards 3
s/a
s/b
s/c
mappings 3
0 1000 s/a online
1000 2000 s/b online
2000 max s/c online
";

#[test]
fn the_first_runbook_is_given_again(rt: HostRuntime) -> Result<(), Fail> {
    let alloc = rt.alloc();
    let world = run_anew(alloc, FIRST)?;
    let again = joined(alloc, FIRST, LOOK)?;
    for moment in 0..=world.moment() {
        let told = told_after(alloc, &world, moment, again.as_slice())?;
        assert!(rt; told.as_slice().ends_with(FIRST_DONE), "after {moment}");
    }
    Ok(())
}

/// A step of a runbook: what the question is answered before it, and its line.
type Step = (&'static [u8], &'static [u8]);

/// The lines of the steps.
fn script_of(alloc: Global, steps: &[Step]) -> Result<Vec<u8>, Fail> {
    let mut script: Vec<u8> = Vec::new(alloc);
    for step in steps {
        script.extend_from_slice(step.1)?;
    }
    Ok(script)
}

/// The steps that are left to do, by the answer.
fn left_by<'a>(steps: &'a [Step], answer: &[u8]) -> Option<&'a [Step]> {
    for at in 0..steps.len() {
        if steps[at].0 == answer {
            return Some(&steps[at..]);
        }
    }
    None
}

/// A runbook on the orders of the first one: what is asked after a crash, its steps, and what is listed in the end.
struct Runbook {
    ask: &'static [u8],
    steps: &'static [Step],
    done: &'static [u8],
}

/// The first moment of the steps after whose crash the answer stands before no step, or what is left by it ends otherwise.
fn first_astray(alloc: Global, runbook: &Runbook) -> Result<Option<u64>, Fail> {
    let begun = run_anew(alloc, FIRST)?;
    let from = begun.moment();
    let steps = script_of(alloc, runbook.steps)?;
    let world = run_over(alloc, begun, steps.as_slice())?;
    for moment in from..=world.moment() {
        let answer = told_after(alloc, &world, moment, runbook.ask)?;
        let Some(left) = left_by(runbook.steps, answer.as_slice()) else {
            return Ok(Some(moment));
        };
        let left = script_of(alloc, left)?;
        let rest = joined(alloc, left.as_slice(), LOOK)?;
        let told = told_after(alloc, &world, moment, rest.as_slice())?;
        if !told.as_slice().ends_with(runbook.done) {
            return Ok(Some(moment));
        }
    }
    Ok(None)
}

const THIRD: Runbook = Runbook {
    ask: b"find orders 500\n",
    steps: &[
        (b"0 1000 s/a online\n", b"split orders 500\n"),
        (b"500 1000 s/a online\n", b"offline orders 500\n"),
        (b"500 1000 s/a offline\n", b"move orders 500 s/b\n"),
        (b"500 1000 s/b offline\n", b"online orders 500\n"),
        (b"500 1000 s/b online\n", b"merge orders 500\n"),
        (b"500 2000 s/b online\n", b""),
    ],
    done: b"mappings 3\n0 500 s/a online\n500 2000 s/b online\n2000 max s/c online\n",
};

#[test]
fn the_third_runbook_goes_on_where_find_says(rt: HostRuntime) -> Result<(), Fail> {
    assert_eq!(rt; first_astray(rt.alloc(), &THIRD)?, None);
    Ok(())
}

const FOURTH: Runbook = Runbook {
    ask: b"find orders 2000\n",
    steps: &[
        (b"2000 max s/c online\n", b"offline orders 2000\n"),
        (b"2000 max s/c offline\n", b"move orders 2000 s/a\n"),
        (b"2000 max s/a offline\n", b"online orders 2000\n"),
        (b"2000 max s/a online\n", b"unshard orders s/c\n"),
    ],
    done: b"shards 2\ns/a\ns/b\nmappings 3\n0 1000 s/a online\n1000 2000 s/b online\n2000 max s/a online\n",
};

#[test]
fn the_fourth_runbook_goes_on_where_find_says(rt: HostRuntime) -> Result<(), Fail> {
    assert_eq!(rt; first_astray(rt.alloc(), &FOURTH)?, None);
    Ok(())
}
