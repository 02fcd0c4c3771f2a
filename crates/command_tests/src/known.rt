//! Commands over files in memory, whose bytes are known: what is written is known exactly.
ghost use Rattle.std.specs.Prelude.{◌≡◌};
ghost use Rattle.command_tests.specs.Memory.{bytes_named};
ghost use Rattle.command_tests.specs.Known.{AppendsAcceptance, AppendsExtract};
ghost use Rattle.layers.specs.Layer.{Rows};
ghost use Rattle.layers.specs.LayerParts.{parts_of};

use crate::files::MemoryFiles;
#[cfg(test)]
use crate::files::{Access, MemoryFile};
#[cfg(test)]
use arrayvec::ArrayString;
use commands::{Request, Run, Verify};
use counted_io::Counting;
#[cfg(test)]
use fixtures::bytes;
#[cfg(test)]
use layers::Layer;
use std::alloc::Global;
#[cfg(test)]
use std::test::Fail;

/// Verifies a program in memory, and returns the exit status.
pub fn answer_verify(
    alloc: Global,
    verify: Verify<'_>,
    files: &mut MemoryFiles<'_>,
    out: &mut Counting<Vec<u8>>,
    errors: &mut Counting<Vec<u8>>,
) -> u8
    ensures { result ≡ 0 → AppendsAcceptance (bytes_named files.old.files.now verify.entry.program.now)
        out.old.inner.items out.new.inner.items }
{
    Request::Verify(verify).answer(alloc, files, out, errors)
}

/// Runs a program over a county in memory, and returns the exit status. The contract is about rows.
pub fn answer_run(
    alloc: Global,
    run: Run<'_>,
    files: &mut MemoryFiles<'_>,
    out: &mut Counting<Vec<u8>>,
    errors: &mut Counting<Vec<u8>>,
) -> u8
    ensures { result ≡ 0 → parts_of run.entry.layer ≡ Rows
        → AppendsExtract (bytes_named files.old.files.now) run.entry out.old.inner.items out.new.inner.items }
{
    Request::Run(run).answer(alloc, files, out, errors)
}

#[test]
fn answers(rt: HostRuntime) -> Result<(), Fail> {
    let files = [
        MemoryFile {
            name: "p.bpf",
            bytes: bytes(rt.alloc(), "{asm mov r0, 1 | exit}")?,
            access: Access::Sound,
        },
        MemoryFile {
            name: "d/TGR01001.RT1",
            bytes: bytes(rt.alloc(), r"{rt1}\n")?,
            access: Access::Sound,
        },
    ];
    let mut files = MemoryFiles {
        files: &files,
        name: "",
        access: Access::Sound,
        failed_opens: 0,
        failed_reads: 0,
        other_failed_reads: 0,
        opened: ArrayString::new(),
    };
    let (verify, run) = (
        Verify { program: "p.bpf" },
        Run {
            program: "p.bpf",
            data: "d",
            code: "01001",
            layer: Layer::Rows,
        },
    );
    let mut out = Counting::new(Vec::new(rt.alloc()));
    let mut errors = Counting::new(Vec::new(rt.alloc()));
    assert_eq!(rt;
        answer_verify(rt.alloc(), verify, &mut files, &mut out, &mut errors),
        0
    );
    assert_eq!(rt;
        answer_run(rt.alloc(), run, &mut files, &mut out, &mut errors),
        0
    );
    let written = bytes(rt.alloc(), r"accepted\n0\t{rt1}\n")?;
    assert_eq!(rt; out.get_ref().as_slice(), written.as_slice());
    Ok(())
}
