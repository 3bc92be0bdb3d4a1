//! What is true of the L forms of all calls, and of the calls themselves.

ghost use Rattle.std.specs.Prelude.{◌≡◌, ◌≤◌, ℕ, ℤ, List, [], length, pos, true};
ghost use Rattle.std.specs.Int.RustNames.{unsigned_abs};
ghost use Rattle.homeo_syntax.specs.Low as low_syntax;
ghost use Rattle.homeo_syntax.specs.Low.{Expr};
ghost use Rattle.homeo_syntax.specs.Source.{Command, Commands, Workload};
ghost use Rattle.homeo_meaning.specs.Schema.{Schema, schema_of};
ghost use Rattle.homeo_meaning.specs.Bounds.{AllWithin, all_bounds};
ghost use Rattle.homeo_meaning.specs.Context.{Context, context};
ghost use Rattle.homeo_meaning.specs.Meaning.{run};
ghost use Rattle.homeo_meaning.specs.Aborts.{holds_abort};
ghost use Rattle.homeo_meaning.specs.LForm.{form, l_form, saved_in};
ghost use Rattle.homeo_meaning.specs.LowMeaning.{Location, State, value, exec, whole};
ghost use Rattle.homeo_meaning.specs.LowWeights.{weight, after, first_weights, is_light};
ghost use Rattle.homeo_meaning.specs.SameRun.{IsSameRun};
ghost use Rattle.homeo_lform.specs.Covers.{Covers};
ghost use Rattle.homeo_lform.specs.Fresh.{flags, TakesFrom};
ghost use Rattle.homeo_lform.specs.SourceWrites.{all_writes};
ghost use Rattle.homeo_meaning.specs.Whole.{IsWhole};
ghost use Rattle.homeo_meaning.specs.NamesWithin.{NamesWithin};
ghost use Rattle.homeo_meaning.specs.Ground.{Ground};
ghost use Rattle.homeo_meaning.specs.CallForm.{ground_form};
ghost use Rattle.homeo_meaning.specs.Acceptance.{IsAccepted};
ghost use Rattle.homeo_meaning.specs.LowComputed as low;
ghost use Rattle.homeo_meaning.specs.Computed.{CanRunAll};
ghost use Rattle.homeo_meaning.specs.Small.{IsSmall, Anything, ComputesSmall};

/// The L form of a call prints what the program's own call prints, and leaves every object with the value that the call
/// leaves it with, whatever the declarations, the arguments and the database.
pub fn form_means_the_program()
    ensures { (x : Schema) (params : List ℕ) (args : List ℤ) (body : Commands) (database : ℕ → ℤ) →
        IsSameRun (exec (l_form x params args body) (whole database)) (run x params args body database) }
{}

/// The L form of a call names whole objects only: no base and no delta.
pub fn form_names_whole_objects()
    ensures calls { (x : Schema) (params : List ℕ) (args : List ℤ) (body : Commands) → IsWhole (l_form x params args body) }
    ensures ground_calls { (w : Workload) (g : Ground) → IsWhole (ground_form w g) }
{}

/// The L form of each call of an accepted workload, whatever its arguments, names only objects that the workload has, and
/// temporaries only by names that it has.
pub fn form_names_only_what_exists()
    ensures { (w : Workload) (g : Ground) → IsAccepted w →
        NamesWithin (length (all_bounds (schema_of w))) (length w.names) (ground_form w g) }
{}

/// The L form of a command takes its fresh temporaries from the number that it is given on. Those below keep their
/// values, but for the flag of a command that can end its call, and the next number is not below that one.
pub fn fresh_temporaries_rise()
    ensures { (x : Context) (c : Command) (n : ℕ) (s : State) →
        TakesFrom (flags (holds_abort c)) n (form x c n).next s (exec (form x c n).command s).state }
{}

/// The objects that a call saves before a body that can end it, which are those that the L form of the body writes, are
/// found along the source, in rising order and each once, whatever temporaries the form takes.
pub fn saved_objects_are_found_along_the_source()
    ensures { (x : Context) (body : Commands) → saved_in x body ≡ all_writes x body [] }
{}

/// A call keeps every object within its bounds, whatever its arguments and whatever names it uses.
pub fn program_stays_within_bounds()
    ensures { (x : Schema) (params : List ℕ) (args : List ℤ) (body : Commands) (database : ℕ → ℤ) →
        AllWithin x database → AllWithin x (run x params args body database).state.database }
{}

/// Where each number that the L form of a call computes is at most b in size, so is each that the program's own call
/// computes, with the partial sums and products from left to right; and likewise of the numbers that stand there or are
/// read.
pub fn small_forms_have_small_programs()
    ensures computed { (b : ℕ) (x : Schema) (params : List ℕ) (args : List ℤ) (body : Commands) (database : ℕ → ℤ) →
        low.CanRun Anything (IsSmall b) (l_form x params args body) (whole database) →
        CanRunAll Anything (IsSmall b) (context x params args) body (record { database = database; temps = λ t. pos 0 }) }
    ensures each { (b : ℕ) (x : Schema) (params : List ℕ) (args : List ℤ) (body : Commands) (database : ℕ → ℤ) →
        low.CanRun (IsSmall b) (IsSmall b) (l_form x params args body) (whole database) →
        CanRunAll (IsSmall b) (IsSmall b) (context x params args) body (record { database = database; temps = λ t. pos 0 }) }
{}

/// Where no expression of the L form of a call weighs more than b, each number of it and of the program's own call is
/// at most b in size, whatever the database within its bounds.
pub fn light_forms_compute_small_numbers()
    ensures { (b : ℕ) (x : Schema) (params : List ℕ) (args : List ℤ) (body : Commands) (database : ℕ → ℤ) →
        AllWithin x database → is_light b (l_form x params args body) (first_weights x) ≡ true →
        ComputesSmall b x params args body database }
{}

/// Along a run of commands no value outgrows its weight. Where each place's value is at most its weight in size, so is
/// the value of each expression, and so is each place's value after a command. Where the database is within its bounds,
/// a call begins so.
pub fn no_value_outgrows_its_weight()
    ensures expressions { (e : Expr) (weights : Location → ℕ) (s : State) →
        Covers weights s → unsigned_abs (value e s) ≤ weight e weights }
    ensures commands { (c : low_syntax.Command) (weights : Location → ℕ) (s : State) →
        Covers weights s → Covers (after c weights) (exec c s).state }
    ensures calls { (x : Schema) (database : ℕ → ℤ) → AllWithin x database → Covers (first_weights x) (whole database) }
{}
