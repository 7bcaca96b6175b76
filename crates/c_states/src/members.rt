// Members of the list by their number, with a lent scratch. However long it is and whatever it holds, the answer is the same; it makes the
// call quicker.
ghost use Rattle.std.specs.Prelude.{◌≡◌};
ghost use Rattle.spec_sc.specs.Sequential.{sc};
ghost use Rattle.spec_calls.specs.Word.{word_of};
ghost use Rattle.spec_calls.specs.Listed.{listed};
ghost use Rattle.spec_members.specs.Kth.{kth_file};
ghost use Rattle.spec_members.specs.Rank.{rank_file};
ghost use Rattle.spec_members.specs.Said.{kth_scratch, rank_reply, rank_later, rank_scratch};

use c_word::{answered, found_word, refused};

// Kind 1 with the listed schedule number k, from 0, in front of `out` and its length, kind 2 where the list has not so many, and zeros in the
// scratch; kind 3 with number and place, and neither `out` nor the scratch changed.
#[unsafe(no_mangle)]
pub extern "C" fn tarczolin_kth(file: &[u8], k: u64, out: &mut [u8], scratch: &mut [u64]) -> u64
    ensures answer { result ≡ word_of (listed (kth_file sc file.now k out.old).0) }
    ensures output { out.new ≡ (kth_file sc file.now k out.old).1 }
    ensures scratch { scratch.new ≡ kth_scratch (kth_file sc file.now k out.old).0 scratch.old }
{
    found_word(member_call::kth(file, k, out, scratch))
}

// Kind 1, with how many listed schedules are smaller than the full one given in the word and zeros in the scratch; kind 3 with number and
// place, and both the word and the scratch unchanged.
#[unsafe(no_mangle)]
pub extern "C" fn tarczolin_rank(
    file: &[u8],
    schedule: &[u8],
    rank: &mut u64,
    scratch: &mut [u64],
) -> u64
    ensures answer { result ≡ word_of (rank_reply (rank_file sc file.now schedule.now)) }
    ensures rank { rank.new ≡ rank_later (rank_file sc file.now schedule.now) rank.old }
    ensures scratch { scratch.new ≡ rank_scratch (rank_file sc file.now schedule.now) scratch.old }
{
    match member_call::rank(file, schedule, scratch) {
        Ok(n) => {
            *rank = n;
            answered(0)
        }
        Err(r) => refused(r.number, r.place),
    }
}
