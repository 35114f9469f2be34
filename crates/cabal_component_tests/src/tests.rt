//! Worked files: every field in each of its shapes, every refusal with its line, and what real packages have.
use crate::component_tables::{
    COMPONENTS, EXECUTABLE_FIELDS, FIELDS, INCLUDES, LIBRARY_FIELDS, MAIN_FILES,
};
use crate::shown::{Asked, answer};
use crate::tables::{FILES, PROJECTS};
use std::alloc::{AllocError, Global};
use std::test::Fail;

/// What is asked of each text of a table, and what stands before it.
#[derive(Clone, Copy, Debug)]
struct Question<'a> {
    asked: Asked,
    head: &'a [u8],
}

/// A case of a table on its way: the answer that it wants, and its text so far.
#[derive(Drop)]
struct Case {
    want: Vec<u8>,
    text: Vec<u8>,
    ended: bool,
}

fn begun(alloc: Global, question: Question, want: &[u8], ended: bool) -> Result<Case, AllocError> {
    Ok(Case {
        want: want.to_vec(alloc)?,
        text: question.head.to_vec(alloc)?,
        ended,
    })
}

/// Whether a case has the answer that it wants.
fn is_right(alloc: Global, question: Question, case: &Case) -> Result<bool, AllocError> {
    let text = match case.text.as_slice() {
        [front @ .., _] if !case.ended => front,
        text => text,
    };
    Ok(answer(alloc, question.asked, text)?.as_slice() == case.want.as_slice())
}

/// What a case wants, and whether its text has a line end at its end, where a line begins a case.
fn wanted(line: &[u8]) -> Option<(&[u8], bool)> {
    match line {
        [b'=', b'>', b' ', want @ ..] => Some((want, true)),
        [b'=', b':', b' ', want @ ..] => Some((want, false)),
        _ => None,
    }
}

/// The number of the first case of a table that is wrong, from 1, or 0.
fn first_wrong(alloc: Global, question: Question, table: &[u8]) -> Result<usize, AllocError> {
    let table = table.strip_suffix(b"\n").unwrap_or(table);
    let mut case: Option<Case> = None;
    let mut number = 0;
    for line in table.split(|b| *b == b'\n') {
        if let Some((want, ended)) = wanted(line) {
            if let Some(before) = &case {
                if !is_right(alloc, question, before)? {
                    return Ok(number);
                }
            }
            case = Some(begun(alloc, question, want, ended)?);
            number = number.saturating_add(1);
        } else if let Some(open) = &mut case {
            open.text.extend_from_slice(line)?;
            open.text.push(b'\n')?;
        }
    }
    match &case {
        Some(last) if is_right(alloc, question, last)? => Ok(0),
        _ => Ok(number),
    }
}

fn asked(asked: Asked) -> Question<'static> {
    Question { asked, head: b"" }
}

fn of_field(asked: Asked, head: &'static [u8]) -> Question<'static> {
    Question { asked, head }
}

#[test]
fn projects_are_read(rt: HostRuntime) -> Result<(), Fail> {
    assert_eq!(rt;
        first_wrong(rt.alloc(), asked(Asked::Project), PROJECTS)?,
        0
    );
    Ok(())
}

#[test]
fn lines_are_refused(rt: HostRuntime) -> Result<(), Fail> {
    assert_eq!(rt; first_wrong(rt.alloc(), asked(Asked::Refused), FILES)?, 0);
    Ok(())
}

#[test]
fn fields_are_refused(rt: HostRuntime) -> Result<(), Fail> {
    let alloc = rt.alloc();
    let library = of_field(Asked::Refused, b"name: a\nlibrary\n  ");
    assert_eq!(rt; first_wrong(alloc, library, LIBRARY_FIELDS)?, 0);
    let executable = of_field(
        Asked::Refused,
        b"name: a\nexecutable e\n  main-is: M.hs\n  ",
    );
    assert_eq!(rt; first_wrong(alloc, executable, EXECUTABLE_FIELDS)?, 0);
    let main = of_field(Asked::Refused, b"name: a\nexecutable e\n  main-is: ");
    assert_eq!(rt; first_wrong(alloc, main, MAIN_FILES)?, 0);
    Ok(())
}

#[test]
fn components_are_read(rt: HostRuntime) -> Result<(), Fail> {
    let alloc = rt.alloc();
    let field = of_field(Asked::Last, b"name: p\nlibrary own\nlibrary\n  ");
    assert_eq!(rt; first_wrong(alloc, field, FIELDS)?, 0);
    assert_eq!(rt; first_wrong(alloc, asked(Asked::Last), COMPONENTS)?, 0);
    assert_eq!(rt; first_wrong(alloc, asked(Asked::Includes), INCLUDES)?, 0);
    Ok(())
}
