//! The generated program.

ghost use Rattle.std.specs.Prelude.{◌≡◌, ◌++◌, IfOk, OnOk, map, string_bytes};
ghost use Rattle.generated_program.specs.Program.{main_lines, pool_lines, program_file, program_lines, text_of, total_lines, worker_lines};
ghost use Rattle.orca_front.specs.Sources.{file_of};

use orca_base::NoMemory;
use orca_front::SourceFile;
use std::alloc::Global;

/// The name of the file as which the program is read.
pub const PROGRAM_NAME: &str = "make";

// The fewest workers that a program has.
const FEWEST_WORKERS: u64 = 3;

// From how many numbers of workers one is taken.
const NUMBERS_OF_WORKERS: u64 = 5;

// The fewest rounds of a worker.
const FEWEST_ROUNDS: u64 = 100;

// From how many numbers of rounds one is taken.
const NUMBERS_OF_ROUNDS: u64 = 100;

// The object type of the total.
const TOTAL: [&str; 9] = [
    "object specification Total;",
    "  operation Add(v: integer);",
    "  operation Value(): integer;",
    "end;",
    "object implementation Total;",
    "  x: integer;",
    "  operation Add(v: integer); begin x := x + v; end;",
    "  operation Value(): integer; begin return x; end;",
    "end;",
];

// The object type of the pool.
const POOL: [&str; 10] = [
    "object specification Pool;",
    "  operation Put(v: integer);",
    "  operation Take(): integer;",
    "end;",
    "object implementation Pool;",
    "  items: bag of integer;",
    "  operation Put(v: integer); begin insert(v, items); end;",
    "  operation Take(): integer;",
    "  begin guard size(items) > 0 do return from(items); od; end;",
    "end;",
];

// Puts texts behind lines.
fn add_lines(alloc: Global, lines: &mut Vec<String>, texts: &[&str]) -> Result<(), NoMemory>
    ensures { OnOk result (map string_bytes lines.new.items ≡ map string_bytes lines.old.items ++ map (λ t. t.now) texts.now) }
{
    'texts: for text in texts {
        let line = String::from_str(alloc, text)?;
        lines.push(line)?;
    }
    Ok(())
}

// Puts the lines of the object types behind others.
fn add_objects(alloc: Global, lines: &mut Vec<String>) -> Result<(), NoMemory>
    ensures { OnOk result (map string_bytes lines.new.items ≡ map string_bytes lines.old.items ++ (total_lines ++ pool_lines)) }
{
    add_lines(alloc, lines, &TOTAL)?;
    add_lines(alloc, lines, &POOL)?;
    Ok(())
}

// Puts the lines of a worker of so many rounds behind others.
fn add_worker(alloc: Global, lines: &mut Vec<String>, rounds: u64) -> Result<(), NoMemory>
    ensures { OnOk result (map string_bytes lines.new.items ≡ map string_bytes lines.old.items ++ worker_lines rounds) }
{
    let adding = format!(in alloc; "  for i in 1..{rounds} do t$Add(j * i); s := t$Value(); od;")?;
    let texts = [
        "process Worker(t: shared Total; p: shared Pool; j: integer);",
        "  s: integer;",
        "begin",
        adding.as_str(),
        "  p$Put(j);",
        "end;",
    ];
    add_lines(alloc, lines, &texts)?;
    Ok(())
}

// Puts the lines of the main process, which forks so many workers, behind others.
fn add_main(alloc: Global, lines: &mut Vec<String>, workers: u64) -> Result<(), NoMemory>
    ensures { OnOk result (map string_bytes lines.new.items ≡ map string_bytes lines.old.items ++ main_lines workers) }
{
    let forking = format!(in alloc; "  for j in 1..{workers} do fork Worker(T, P, j) on j; od;")?;
    let taking = format!(in alloc; "  for j in 1..{workers} do s := P$Take(); od;")?;
    let texts = [
        "process OrcaMain();",
        "  T: Total; P: Pool; s: integer;",
        "begin",
        forking.as_str(),
        taking.as_str(),
        "  WriteLine(T$Value());",
        "end;",
    ];
    add_lines(alloc, lines, &texts)?;
    Ok(())
}

/// The lines of the program of a number (docs/FORMATS.md, The generated program), without their line feeds.
pub fn program_lines(alloc: Global, number: u64) -> Result<Vec<String>, NoMemory>
    ensures { IfOk result (λ lines. map string_bytes lines.items ≡ program_lines number) }
{
    let mut lines = Vec::new(alloc);
    add_objects(alloc, &mut lines)?;
    add_worker(
        alloc,
        &mut lines,
        FEWEST_ROUNDS + number % NUMBERS_OF_ROUNDS,
    )?;
    add_main(
        alloc,
        &mut lines,
        FEWEST_WORKERS + number % NUMBERS_OF_WORKERS,
    )?;
    Ok(lines)
}

// Lines, each with a line feed behind it.
fn joined(alloc: Global, lines: &[String]) -> Result<Vec<u8>, NoMemory>
    ensures { IfOk result (λ text. text.items ≡ text_of (map string_bytes lines.now)) }
{
    let mut text = Vec::new(alloc);
    'lines: for line in lines {
        text.extend_from_slice(line.as_bytes())?;
        text.push(b'\n')?;
    }
    Ok(text)
}

/// The program of a number as the front end reads it: the file `make` with its text.
pub fn program_source(alloc: Global, number: u64) -> Result<SourceFile<'static>, NoMemory>
    ensures { IfOk result (λ source. file_of source ≡ program_file number) }
{
    let lines = program_lines(alloc, number)?;
    let text = joined(alloc, &lines)?;
    Ok(SourceFile {
        name: PROGRAM_NAME,
        text,
    })
}
