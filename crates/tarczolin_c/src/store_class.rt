// How large the class of a schedule is under total store order.
ghost use Rattle.std.specs.Prelude.{◌≡◌};
ghost use Rattle.spec_model.specs.ClassSize.{class_file};
ghost use Rattle.spec_tso.specs.TotalStoreOrder.{tso};
ghost use Rattle.spec_calls.specs.Word.{word_of};
ghost use Rattle.spec_calls.specs.Classed.{class_reply};

#[unsafe(no_mangle)]
pub extern "C" fn tarczolin_tso_class(file: &[u8], schedule: &[u8]) -> u64
    ensures { result ≡ word_of (class_reply (class_file tso file.now schedule.now)) }
{
    c_tso::tarczolin_tso_class(file, schedule)
}
