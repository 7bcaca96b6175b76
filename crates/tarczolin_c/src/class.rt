// How large the class of a schedule is.
ghost use Rattle.std.specs.Prelude.{◌≡◌};
ghost use Rattle.spec_model.specs.ClassSize.{class_file};
ghost use Rattle.spec_sc.specs.Sequential.{sc};
ghost use Rattle.spec_calls.specs.Word.{word_of};
ghost use Rattle.spec_calls.specs.Classed.{class_reply};

#[unsafe(no_mangle)]
pub extern "C" fn tarczolin_class(file: &[u8], schedule: &[u8]) -> u64
    ensures { result ≡ word_of (class_reply (class_file sc file.now schedule.now)) }
{
    c_extra::tarczolin_class(file, schedule)
}
