//! The program `bpfmem`: the words, standard streams and exit status of a call.
#![tactic(auto)]

use bm_text::{NoMemory, Sink, StdSink, StdSource};
use bm_tool::{Answer, bpfmem, out_of_memory};
use std::env::Env;
use std::process::ExitCode;
use std::{env, io};

// The words of the command line behind the program's name. If one is no text they are no command, as no words are.
fn words(rt: &(impl Env + AllocGlobal)) -> Result<Vec<String>, NoMemory> {
    let mut words = Vec::new(rt.alloc());
    match env::args(rt) {
        Ok(args) => {
            for word in args.skip(1) {
                words.push(word)?;
            }
            Ok(words)
        }
        Err(error) if error.kind() == io::ErrorKind::InvalidData => Ok(words),
        Err(_) => Err(NoMemory),
    }
}

fn answer<R: Env + io::Input + io::Print + AllocGlobal, E: Sink>(
    rt: &R,
    err: &mut E,
) -> Result<Answer, NoMemory>
where
    R::Reader: Drop,
{
    let owned = words(rt)?;
    let words: Vec<&str> = owned.iter().map(|word| word.as_str()).collect(rt.alloc())?;
    let mut source = StdSource::new(rt.reader());
    let mut out = StdSink::new(io::writer(rt));
    Ok(bpfmem(rt.alloc(), words.as_slice(), &mut source, &mut out, err))
}

fn main(rt: HostRuntime) -> ExitCode {
    let mut err = StdSink::new(rt.stderr());
    let answer = match answer(&rt, &mut err) {
        Ok(answer) => answer,
        Err(NoMemory) => out_of_memory(&mut err),
    };
    ExitCode::from(answer.status)
}
