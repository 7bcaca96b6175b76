// How many schedules of a program file's list are smaller than a full one, which need not be listed, with a lent scratch. However long it is
// and whatever it holds, the answer is the same.
ghost use Rattle.std.specs.Prelude.{◌≡◌};
ghost use Rattle.spec_file.specs.WellFormed.{WellFormed};
ghost use Rattle.spec_file.specs.Decode.{decode};
ghost use Rattle.file_decoder.specs.Compiled.{program_of, answer_of};
ghost use Rattle.spec_model.specs.OnFile.{admit};
ghost use Rattle.spec_sc.specs.Sequential.{sc};
ghost use Rattle.spec_members.specs.Rank.{rank_of, rank_file};
ghost use Rattle.spec_members.specs.Said.{rank_scratch};
ghost use Rattle.member_call.specs.RankWord.{rank_answer_of};

use file_decoder::Compiled;
use listing_model::Model;
use listing_replay::{admitted, replayed};
use spec_file::Refusal;

// Of an accepted program, modulo 2^64: 20 and 21 of the schedule come first.
fn rank_of(program: Compiled, schedule: &[u8], scratch: &mut [u64]) -> Result<u64, Refusal>
    requires { WellFormed (program_of program) }
    ensures answer { result ≡ rank_answer_of (rank_of sc (program_of program) schedule.now) }
    ensures later { scratch.new ≡ rank_scratch (rank_of sc (program_of program) schedule.now) scratch.old }
{
    let run = replayed(Model::Sequential, program, schedule);
    run.end?;
    Ok(states_member::rank(program, schedule, scratch))
}

// The program of a file that sequential consistency lists, or what refuses the file.
fn program_from(file: &[u8]) -> Result<Compiled, Refusal>
    ensures { answer_of result ≡ admit sc (decode file.now) }
{
    admitted(Model::Sequential, file)
}

// The file's refusals come first.
pub fn rank(file: &[u8], schedule: &[u8], scratch: &mut [u64]) -> Result<u64, Refusal>
    ensures answer { result ≡ rank_answer_of (rank_file sc file.now schedule.now) }
    ensures later { scratch.new ≡ rank_scratch (rank_file sc file.now schedule.now) scratch.old }
{
    let program = program_from(file)?;
    rank_of(program, schedule, scratch)
}
