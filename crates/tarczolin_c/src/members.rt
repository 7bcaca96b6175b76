// Members of the list by their number, with a lent scratch. However long it is and whatever it holds, the answer is the same; it makes the
ghost use Rattle.std.specs.Prelude.{◌≡◌};
ghost use Rattle.spec_sc.specs.Sequential.{sc};
ghost use Rattle.spec_calls.specs.Word.{word_of};
ghost use Rattle.spec_calls.specs.Listed.{listed};
ghost use Rattle.spec_members.specs.Kth.{kth_file};
ghost use Rattle.spec_members.specs.Rank.{rank_file};
ghost use Rattle.spec_members.specs.Said.{kth_scratch, rank_reply, rank_later, rank_scratch};

#[unsafe(no_mangle)]
pub extern "C" fn tarczolin_kth(file: &[u8], k: u64, out: &mut [u8], scratch: &mut [u64]) -> u64
    ensures answer { result ≡ word_of (listed (kth_file sc file.now k out.old).0) }
    ensures output { out.new ≡ (kth_file sc file.now k out.old).1 }
    ensures scratch { scratch.new ≡ kth_scratch (kth_file sc file.now k out.old).0 scratch.old }
{
    c_states::tarczolin_kth(file, k, out, scratch)
}

#[unsafe(no_mangle)]
pub extern "C" fn tarczolin_rank(
    file: &[u8],
    schedule: &[u8],
    rank: &mut u64,
    scratch: &mut [u64],
) -> u64
    ensures answer { result ≡ word_of (rank_reply (rank_file sc file.now schedule.now)) }
    ensures rank { rank.new ≡ rank_later (rank_file sc file.now schedule.now) rank.old }
    ensures scratch { scratch.new ≡ rank_scratch (rank_file sc file.now schedule.now) scratch.old }
{
    c_states::tarczolin_rank(file, schedule, rank, scratch)
}
