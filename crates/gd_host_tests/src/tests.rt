use crate::rows::{
    Row, companions, many_files, marks, names, no_files, other_ends, other_things, pages, ranges,
    replaced, wrong_form, wrong_targets, wrong_texts,
};
use crate::steps::Stage;
use std::fs;
use std::os::unix::fs::symlink;
use std::test::Fail;

// Does the steps of rows, and refuses the first of which something else comes.
fn play(rt: &HostRuntime, stage: &mut Stage<'_>, rows: &[Row]) -> Result<(), Fail> {
    for (shows, step, answer) in rows {
        if stage.do_step(rt, *step)? != *answer {
            return Err((*shows).into());
        }
    }
    Ok(())
}

fn play_new(rt: &HostRuntime, rows: &[Row]) -> Result<(), Fail> {
    let mut stage = Stage::new(rt, rt.alloc());
    play(rt, &mut stage, rows)
}

#[test]
fn ranges_of_a_host_file(rt: HostRuntime) -> Result<(), Fail> {
    play_new(&rt, &ranges())
}

#[test]
fn pages_of_a_host_file(rt: HostRuntime) -> Result<(), Fail> {
    play_new(&rt, &pages())
}

#[test]
fn companions_of_host_files(rt: HostRuntime) -> Result<(), Fail> {
    play_new(&rt, &companions())
}

// A file beside which this text stands.
fn keeps_text(rt: &HostRuntime, stage: &mut Stage<'_>, text: &str) -> Result<bool, Fail> {
    fs::write(rt, "form.mode", text)?;
    play(rt, stage, &wrong_form())?;
    Ok(fs::read_to_string(rt, "form.mode")?.as_str() == text)
}

#[test]
fn a_text_that_is_no_companion_stays(rt: HostRuntime) -> Result<(), Fail> {
    let mut stage = Stage::new(&rt, rt.alloc());
    for text in wrong_texts() {
        assert!(rt; keeps_text(&rt, &mut stage, text)?, "{text}");
    }
    Ok(fs::remove_file(&rt, "form.mode")?)
}

// A file beside which a link stands.
fn keeps_link(rt: &HostRuntime, stage: &mut Stage<'_>, target: &str) -> Result<bool, Fail> {
    symlink(rt, target, "form.mode")?;
    play(rt, stage, &wrong_form())?;
    let left = fs::read_link(rt, "form.mode")?;
    fs::remove_file(rt, "form.mode")?;
    Ok(left.as_str() == target)
}

#[test]
fn a_link_or_a_folder_that_is_no_companion_stays(rt: HostRuntime) -> Result<(), Fail> {
    let mut stage = Stage::new(&rt, rt.alloc());
    for target in wrong_targets() {
        assert!(rt; keeps_link(&rt, &mut stage, target)?, "{target}");
    }
    fs::create_dir(&rt, "form.mode")?;
    play(&rt, &mut stage, &wrong_form())?;
    Ok(fs::remove_dir(&rt, "form.mode")?)
}

#[test]
fn marks_stay_with_their_file(rt: HostRuntime) -> Result<(), Fail> {
    play_new(&rt, &marks())
}

#[test]
fn names_of_host_files(rt: HostRuntime) -> Result<(), Fail> {
    play_new(&rt, &names())
}

#[test]
fn names_that_stand_for_no_file(rt: HostRuntime) -> Result<(), Fail> {
    let mut stage = Stage::new(&rt, rt.alloc());
    play(&rt, &mut stage, &other_things())?;
    play(&rt, &mut stage, &no_files())?;
    play(&rt, &mut stage, &other_ends())
}

#[test]
fn many_files_are_opened_again(rt: HostRuntime) -> Result<(), Fail> {
    play_new(&rt, &many_files())
}

#[test]
fn replaced_files_are_given_up(rt: HostRuntime) -> Result<(), Fail> {
    play_new(&rt, &replaced())
}
