//! Laws of the negotiation, only over the definitions.

ghost use Rattle.std.specs.Prelude.{◌≡◌, ℕ, Bool, None, Some, List};
ghost use Rattle.tn_codes.specs.declared.codes.Verb.{Verb};
ghost use Rattle.tn_option.specs.{QMethod.{side_of, cause_of, wish_for}, Options.state_of};
ghost use Rattle.tn_option.specs.Options.{Options, known_option, options_after_word, options_after_wish};
ghost use Rattle.tn_option.specs.Laws.{MovesByCell, LeavesOthers, AgreesAsBefore};
ghost use Rattle.tn_option.specs.OptionWorld.{OptionStep, steps, opening_world, EndsAgree, FewWords};
ghost use Rattle.tn_option.specs.EnginePair.{EngineStep, engine_steps, pair_of, EnginesAgree};
ghost use Rattle.tn_option.specs.declared.{known.Known.Known, negotiation.Agree.Agree, q_method.Side.Side};
ghost use Rattle.tn_option.specs.declared.q_method.QState.TheVariants.{No};

/// A message or a request about an option that is none of the four changes nothing.
pub fn unknown_options_change_nothing()
    ensures words { (o : Options) (verb : Verb) (code : ℕ) → known_option code ≡ None →
        options_after_word o verb code ≡ o }
    ensures wishes { (o : Options) (side : Side) (code : ℕ) (on : Bool) → known_option code ≡ None
        → options_after_wish o side code on ≡ o }
    ensures states { (o : Options) (side : Side) (code : ℕ) → known_option code ≡ None →
        state_of o side code ≡ No }
{}

/// A message about one of the four options moves its side by one cell of the table, and leaves the
/// other side, the other options and what this end agrees to.
pub fn words_change_one_place()
    ensures moves { (o : Options) (verb : Verb) (code : ℕ) (option : Known) →
        known_option code ≡ Some option →
        MovesByCell o (options_after_word o verb code) (side_of verb) code (cause_of verb) }
    ensures others { (o : Options) (verb : Verb) (code : ℕ) →
        LeavesOthers o (options_after_word o verb code) (side_of verb) code }
    ensures agreement { (o : Options) (verb : Verb) (code : ℕ) →
        AgreesAsBefore o (options_after_word o verb code) }
{}

/// A request about one of the four options moves its side by one cell of the table, and leaves the
/// other side, the other options and what this end agrees to.
pub fn wishes_change_one_place()
    ensures moves { (o : Options) (side : Side) (code : ℕ) (on : Bool) (option : Known)
        → known_option code ≡ Some option →
        MovesByCell o (options_after_wish o side code on) side code (wish_for on) }
    ensures others { (o : Options) (side : Side) (code : ℕ) (on : Bool)
        → LeavesOthers o (options_after_wish o side code on) side code }
    ensures agreement { (o : Options) (side : Side) (code : ℕ) (on : Bool)
        → AgreesAsBefore o (options_after_wish o side code on) }
{}

/// If no message about an option is on its way, the option is on at both ends or off at both, and
/// no more than two messages were sent for each accepted request. This holds whichever options the
/// two ends request and agree to, and in whatever order messages arrive.
pub fn options_agree()
    ensures ends { (list : List OptionStep) → EndsAgree (steps list opening_world) }
    ensures words { (list : List OptionStep) → FewWords (steps list opening_world) }
{}

/// Two whole ends, whose messages about all options share one way, agree on each of the four
/// options, on either side, if no message about that side of it is on its way.
pub fn engines_agree()
    ensures { (here there : Agree) (list : List EngineStep)
        (side : Side) (code : ℕ) (option : Known) →
        known_option code ≡ Some option →
        EnginesAgree (engine_steps list (pair_of here there)) side code }
{}
