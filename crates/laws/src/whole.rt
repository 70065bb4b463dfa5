// The whole way: calls to rule list, rule list to bytes, bytes to answers, over any store.

ghost use Rattle.spec.specs.Stores.{Store, Laws};
ghost use Rattle.spec.specs.Promise.{single_pos, pair_pos};
ghost use Rattle.laws.specs.Made.{RunsMake};
ghost use Rattle.laws.specs.Whole.{BytesAnswer, RunsAnswer};

// A variation store, known by its meaning alone: the trait of that name in `stores`, which has the calls, stands above this crate.
pub trait VariationStore {
    ghost store: { Store Self };

    ghost lawful: { Laws store };
}

// Every run of calls makes a rule list whose entries are good and whose rules name what was entered.
pub fn runs_make<S: VariationStore>()
    ensures single { RunsMake single_pos S.VariationStore.store }
    ensures pair { RunsMake pair_pos S.VariationStore.store }
{}

// The bytes of a single lookup answer every question as its rule list does.
pub fn single_bytes_answer<S: VariationStore>()
    ensures { BytesAnswer single_pos S.VariationStore.store }
{}

// So do those of any run of calls up to an accepted build, and ids keep their deltas.
pub fn single_runs_answer<S: VariationStore>()
    ensures { RunsAnswer single_pos S.VariationStore.store }
{}

// The bytes of a pair lookup answer every question as its rule list does.
pub fn pair_bytes_answer<S: VariationStore>()
    ensures { BytesAnswer pair_pos S.VariationStore.store }
{}

// So do those of any run of calls up to an accepted build, and ids keep their deltas.
pub fn pair_runs_answer<S: VariationStore>()
    ensures { RunsAnswer pair_pos S.VariationStore.store }
{}
