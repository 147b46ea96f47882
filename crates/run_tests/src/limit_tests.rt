//! Scripts at the limits: of a script, of maps, and of the tables of a map.
use plain_model::finish::RunStatus;
use script_runs::runs::{Ran, is, run_over};
use script_runs::worlds::empty_world;
use std::alloc::Global;
use std::test::Fail;

/// Whether a run was answered `ok` so many times, and then `full`.
fn is_full_after(alloc: Global, ran: &Ran, count: usize) -> Result<bool, Fail> {
    let mut wanted: Vec<u8> = Vec::new(alloc);
    for _ in 0..count {
        wanted.extend_from_slice(b"ok\n")?;
    }
    wanted.extend_from_slice(b"full\n")?;
    is(alloc, ran, RunStatus::Refused, wanted.as_slice())
}

#[test]
fn a_map_has_at_most_16_tables(rt: HostRuntime) -> Result<(), Fail> {
    let alloc = rt.alloc();
    let mut script = b"map m range int\n".to_vec(alloc)?;
    for letter in b'a'..=b'q' {
        script.extend_from_slice(b"table m ")?;
        script.push(letter)?;
        script.push(b'\n')?;
    }
    let after = run_over(alloc, empty_world(alloc)?, script);
    assert!(rt; is_full_after(alloc, &after, 17)?);
    Ok(())
}

#[test]
fn at_most_64_maps_stand(rt: HostRuntime) -> Result<(), Fail> {
    let alloc = rt.alloc();
    let mut script: Vec<u8> = Vec::new(alloc);
    for number in 0..65u8 {
        script.extend_from_slice(b"map m")?;
        script.push(b'0' + number / 10)?;
        script.push(b'0' + number % 10)?;
        script.extend_from_slice(b" range int\n")?;
    }
    let after = run_over(alloc, empty_world(alloc)?, script);
    assert!(rt; is_full_after(alloc, &after, 64)?);
    Ok(())
}

/// Runs a script of so many line feeds.
fn run_feeds(alloc: Global, count: usize) -> Result<Ran, Fail> {
    let script = vec![in alloc; b'\n'; count]?;
    Ok(run_over(alloc, empty_world(alloc)?, script))
}

#[test]
fn a_script_of_line_feeds_does_nothing(rt: HostRuntime) -> Result<(), Fail> {
    let alloc = rt.alloc();
    let fits = run_feeds(alloc, 1_048_576)?;
    assert!(rt; is(alloc, &fits, RunStatus::Done, b"")?);
    let more = run_feeds(alloc, 1_048_577)?;
    assert!(rt; is(alloc, &more, RunStatus::TooLong, b"")?);
    Ok(())
}
