//! An engine as an embedder calls it: a line is parsed, its command is run, and its turns are given.
ghost use Rattle.std.specs.Prelude.{◌≡◌, ◌≤◌, ◌↔◌, true, false, length, OnOk};
ghost use Rattle.hg_engine.specs.Shown.{is_pending};

use crate::{Config, Devices, Engine};
use hg_engine::{Machine, Next, Reply};
use hg_io::MemDevice;
use hg_parse::parse;
use std::alloc::AllocError;
use std::test::Fail;

/// Gives the turns of the command at work to its end. Their lines are put behind `said`.
fn finish(
    engine: &mut Engine<MemDevice, MemDevice>,
    begun: Next,
    reply: &mut Reply,
    said: &mut Vec<u8>,
) -> Result<(), AllocError>
    requires more { (begun ≡ Next.More) ↔ (is_pending engine.old ≡ true) }
    ensures idle { OnOk result (is_pending engine.new ≡ false) }
{
    let mut next = begun;
    while let Next::More = next {
        next = engine.more(reply);
        said.extend_from_slice(reply.text.as_slice())?;
    }
    Ok(())
}

/// Runs a line whole. Its lines are put behind `said`; nothing is said where the parser reads no command.
fn ask(
    engine: &mut Engine<MemDevice, MemDevice>,
    line: &[u8],
    reply: &mut Reply,
    said: &mut Vec<u8>,
) -> Result<(), AllocError>
    requires idle { is_pending engine.old ≡ false }
    requires short { length line.now ≤ 4096 }
    ensures idle { OnOk result (is_pending engine.new ≡ false) }
{
    match parse(line, engine.max()) {
        Ok(Some(parsed)) => {
            let next = engine.command(parsed, reply);
            said.extend_from_slice(reply.text.as_slice())?;
            finish(engine, next, reply, said)
        }
        _ => Ok(()),
    }
}

/// Five lines of which one is read as a command that there is not by now, and one as none.
fn talk(
    engine: &mut Engine<MemDevice, MemDevice>,
    reply: &mut Reply,
    said: &mut Vec<u8>,
) -> Result<(), AllocError>
    requires idle { is_pending engine.old ≡ false }
    ensures idle { OnOk result (is_pending engine.new ≡ false) }
{
    let create = b"CREATE TABLE t (a INTEGER)".as_slice();
    let insert = b"INSERT INTO t VALUES (1), (NULL)".as_slice();
    let select = b"SELECT * FROM t".as_slice();
    ask(engine, create, reply, said)?;
    ask(engine, insert, reply, said)?;
    ask(engine, b"MPL 2".as_slice(), reply, said)?;
    ask(engine, b"SELEC".as_slice(), reply, said)?;
    ask(engine, select, reply, said)?;
    ask(engine, create, reply, said)
}

#[test]
fn an_embedder_runs_commands(rt: HostRuntime) -> Result<(), Fail> {
    let alloc = rt.alloc();
    let config = Config {
        max: 16,
        pool: 16,
        mpl: 1,
        main_pages: 64,
        temp_pages: 64,
    };
    let main = MemDevice::new(alloc, Vec::new(alloc), Vec::new(alloc));
    let temp = MemDevice::new(alloc, Vec::new(alloc), Vec::new(alloc));
    let mut reply = Reply::new();
    let mut said = Vec::new(alloc);
    let Ok(mut engine) = Engine::new(alloc, &config, main, temp) else {
        return Err(Fail::from(AllocError));
    };
    let talked = talk(&mut engine, &mut reply, &mut said);
    let Devices { main: _, temp: _ } = engine.close();
    talked?;
    assert_eq!(rt;
        said.as_slice(),
        b"created\nrows 2\nerror 1 syntax\nrow * 1\nrow * NULL\nend *\nerror 8 name taken t\n".as_slice()
    );
    Ok(())
}
