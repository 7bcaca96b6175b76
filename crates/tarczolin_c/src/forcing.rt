// Who can force the failure of an assertion.
ghost use Rattle.std.specs.Prelude.{◌≡◌};
ghost use Rattle.spec_force.specs.Forced.{Answer, Forced};
ghost use Rattle.spec_calls.specs.Word.{word_of};
ghost use Rattle.spec_calls.specs.Forced.{force_reply};
ghost use Rattle.spec_calls.specs.Scratch.{force_scratch};

#[unsafe(no_mangle)]
pub extern "C" fn tarczolin_force(file: &[u8], set: u8) -> u64
    ensures { (a : Answer) × Forced file.now set a × (result ≡ word_of (force_reply a)) }
{
    c_extra::tarczolin_force(file, set)
}

#[unsafe(no_mangle)]
pub extern "C" fn tarczolin_force_with(file: &[u8], set: u8, scratch: &mut [u64]) -> u64
    ensures { (a : Answer) × Forced file.now set a × (result ≡ word_of (force_reply a))
        × (scratch.new ≡ force_scratch a scratch.old) }
{
    c_extra::tarczolin_force_with(file, set, scratch)
}
