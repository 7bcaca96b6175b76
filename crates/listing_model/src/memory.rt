// The memory model that a call lists by, and how many bytes of an output its schedules need.
ghost use Rattle.std.specs.Prelude.{◌≡◌};
ghost use Rattle.listing_model.specs.ModelOf.{model_of};

#[derive(Clone, Copy)]
pub enum Model {
    // Each step is an access of a thread.
    Sequential,
    // Stores wait in a queue for each thread, and move to memory by steps of their own.
    TotalStoreOrder,
}

// The steps that a row has room for; an output of fewer bytes is refused.
pub fn width(model: Model) -> usize
    ensures { result ≡ (model_of model).need }
{
    match model {
        Model::Sequential => 24,
        Model::TotalStoreOrder => 48,
    }
}
