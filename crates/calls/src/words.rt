//! The words of a run, and what they ask for.
use bit_lists::OutOfMemory;
use call_rows::{Page, Row};
use sliq_words::{Asked, Task, ask};
use std::alloc::Global;

/// What the row's words ask for: the command with its values, the files, the five rules.
pub fn tell(row: &mut Row<'_>, page: &mut Page) {
    match words_of(page.alloc, row) {
        Ok(words) => tell_answer(&words, page),
        Err(stop) => page.show(&stop),
    }
}

fn words_of(alloc: Global, row: &mut Row<'_>) -> Result<Vec<String>, OutOfMemory> {
    let mut list = Vec::new(alloc);
    for _ in 0..100 {
        if !row.is_over() {
            list.push(String::from_str(alloc, row.name())?)?;
        }
    }
    Ok(list)
}

fn tell_answer(words: &[String], page: &mut Page) {
    match ask(page.alloc, words) {
        Ok(asked) => tell_asked(&asked, page),
        Err(stop) => page.show(&stop),
    }
}

fn tell_asked(asked: &Asked, page: &mut Page) {
    tell_task(&asked.task, page);
    for file in &asked.files {
        tell_file(file, page);
    }
    page.show(&asked.rules);
}

fn tell_task(task: &Task, page: &mut Page) {
    match task {
        Task::Sim { input: Some(bits) } => {
            page.text("sim, input ");
            page.bits(bits);
        }
        Task::Sim { input: None } => page.text("sim"),
        Task::Eq => page.text("eq"),
        Task::Prob => page.text("prob"),
        Task::Demo {
            qubits,
            gates,
            seed,
        } => {
            page.text("demo");
            page.show(&(*qubits, *gates, *seed));
        }
        Task::Sample { shots, seed } => {
            page.text("sample");
            page.show(&(*shots, *seed));
        }
        Task::Fidelity => page.text("fidelity"),
    }
}

// The name of a file, or the length of a long one.
fn tell_file(name: &str, page: &mut Page) {
    page.text(" [");
    if name.len() <= 100 {
        page.text(name);
    } else {
        page.show(&name.len());
        page.text(" bytes");
    }
    page.text("]");
}
