//! Linking: texts that link, and what is told of others.

use crate::trees::unit_of;
use orca_base::{Refusal, Text};
use orca_modules::{NamedUnit, link};
use std::alloc::Global;
use std::test::Fail;

// What linking tells of texts, each with its file: how many link, or the rule that is broken, the name and where it stands.
fn told(alloc: Global, texts: &[(&str, &str)]) -> Result<String, Fail> {
    let mut units = Vec::new(alloc);
    for (file, text) in texts {
        let file = Text::from_str(alloc, file)?;
        let unit = unit_of(alloc, text)?;
        units.push(NamedUnit { file, unit })?;
    }
    match link(alloc, units) {
        Ok(program) => Ok(format!(in alloc; "{} link", program.units.len())?),
        Err(Refusal::Because { cause }) => Ok(format!(in alloc;
            "{}:{}:{}: rule {} {}",
            cause.file.as_str(),
            cause.at.line,
            cause.at.column,
            cause.rule,
            cause.name.as_str()
        )?),
        Err(Refusal::NoMemory) => Err("no memory".into()),
    }
}

const MAIN: &str = "process OrcaMain(); begin end;";

#[test]
fn linking_tells_the_first_breach(rt: HostRuntime) -> Result<(), Fail> {
    let alloc = rt.alloc();
    assert_eq!(rt; told(alloc, &[("m.orca", MAIN)])?.as_str(), "1 link");
    assert_eq!(rt;
        told(
            alloc,
            &[
                (
                    "m.orca",
                    "import A;\nimport A;\nprocess OrcaMain(); begin end;"
                ),
                ("a.orca", "module A;\nimport B;"),
                ("b.orca", "module B;")
            ]
        )?
        .as_str(),
        "3 link"
    );
    assert_eq!(rt;
        told(
            alloc,
            &[
                ("a.orca", "type Light = enum(Red);"),
                ("b.orca", "module B;\nconst Red = 1;")
            ]
        )?
        .as_str(),
        "b.orca:2:7: rule 1 Red"
    );
    assert_eq!(rt;
        told(alloc, &[("a.orca", MAIN), ("b.orca", "# nothing\n")])?.as_str(),
        "b.orca:1:1: rule 1 Main"
    );
    assert_eq!(rt;
        told(
            alloc,
            &[("a.orca", "module A;\nimport Red;\nconst Red = 1;")]
        )?
        .as_str(),
        "a.orca:2:8: rule 2 Red"
    );
    assert_eq!(rt;
        told(
            alloc,
            &[
                ("a.orca", "module A;\nimport B;"),
                ("b.orca", "module B;\nimport A;")
            ]
        )?
        .as_str(),
        "a.orca:2:8: rule 3 B"
    );
    assert_eq!(rt;
        told(
            alloc,
            &[
                ("c.orca", "module C;\nimport A;"),
                ("a.orca", "module A;\nimport B;"),
                ("b.orca", "module B;\nimport A;")
            ]
        )?
        .as_str(),
        "a.orca:2:8: rule 3 B"
    );
    assert_eq!(rt;
        told(alloc, &[("a.orca", "module A;\nimport A;")])?.as_str(),
        "a.orca:2:8: rule 3 A"
    );
    assert_eq!(rt;
        told(alloc, &[("a.orca", "module OrcaMain;")])?.as_str(),
        ":1:1: rule 4 "
    );
    assert_eq!(rt;
        told(
            alloc,
            &[(
                "a.orca",
                "object specification Cell; end;\nprocess OrcaMain(); begin end;"
            )]
        )?
        .as_str(),
        "a.orca:1:22: rule 5 Cell"
    );
    Ok(())
}
