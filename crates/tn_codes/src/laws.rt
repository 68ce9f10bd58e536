//! Laws of codes and payloads, only over the definitions.

ghost use Rattle.std.specs.Prelude.{◌≡◌, ◌↔◌, ℕ, List, Some};
ghost use Rattle.tn_codes.specs.Codes.{verb_code, command_code, func_code, level_code};
ghost use Rattle.tn_codes.specs.Payloads.{Says, IsUnknownOption, IsUnknownSub, HasBadLength, mode};
ghost use Rattle.tn_codes.specs.Payloads.{forwardmask, slc, option_of, parameters_of, Fits};
ghost use Rattle.tn_codes.specs.{PayloadOf.payload_of, declared.codes.{Verb.Verb, Command.Command}};
ghost use Rattle.tn_codes.specs.declared.{codes.{Func.Func, Level.Level}, payloads.Payload.Payload};
ghost use Rattle.tn_codes.specs.OptionCodes as option_code;
ghost use Rattle.tn_codes.specs.declared.codes.Verb.TheVariants as verb;
ghost use Rattle.tn_codes.specs.declared.codes.Command.TheVariants as command;
ghost use Rattle.tn_codes.specs.declared.codes.Func.TheVariants as func;
ghost use Rattle.tn_codes.specs.declared.codes.Level.TheVariants as level;
ghost use Rattle.tn_codes.specs.declared.numbers.TheConstants as constant;

/// The options' constants are the codes that RFC 857, 858, 1073 and 1184 give them.
pub fn options()
    ensures echo { constant.ECHO ≡ option_code.echo }
    ensures suppress_go_ahead { constant.SUPPRESS_GO_AHEAD ≡ option_code.suppress_go_ahead }
    ensures naws { constant.NAWS ≡ option_code.naws }
    ensures linemode { constant.LINEMODE ≡ option_code.linemode }
{}

/// IAC (RFC 854), the kinds of LINEMODE subnegotiation, and the bits of a mask and of a modifier (RFC 1184).
pub fn numbers()
    ensures iac { constant.IAC ≡ 255 }
    ensures mode { constant.MODE ≡ mode }
    ensures forwardmask { constant.FORWARDMASK ≡ forwardmask }
    ensures slc { constant.SLC ≡ slc }
    ensures edit { constant.EDIT ≡ 1 }
    ensures trapsig { constant.TRAPSIG ≡ 2 }
    ensures mode_ack { constant.MODE_ACK ≡ 4 }
    ensures level_bits { constant.LEVEL_BITS ≡ 3 }
    ensures ack { constant.ACK ≡ 128 }
{}

/// The verbs of option negotiation have the codes of RFC 854.
pub fn verbs()
    ensures will { verb_code verb.Will ≡ 251 }
    ensures wont { verb_code verb.Wont ≡ 252 }
    ensures do_it { verb_code verb.DoIt ≡ 253 }
    ensures dont_it { verb_code verb.DontIt ≡ 254 }
{}

/// The commands of one byte have the codes of RFC 854, RFC 885 and RFC 1184.
pub fn commands()
    ensures eof { command_code command.Eof ≡ 236 }
    ensures susp { command_code command.Susp ≡ 237 }
    ensures abort { command_code command.Abort ≡ 238 }
    ensures eor { command_code command.Eor ≡ 239 }
    ensures nop { command_code command.Nop ≡ 241 }
    ensures dm { command_code command.Dm ≡ 242 }
    ensures brk { command_code command.Brk ≡ 243 }
    ensures ip { command_code command.Ip ≡ 244 }
    ensures ao { command_code command.Ao ≡ 245 }
    ensures ayt { command_code command.Ayt ≡ 246 }
    ensures ec { command_code command.Ec ≡ 247 }
    ensures el { command_code command.El ≡ 248 }
    ensures ga { command_code command.Ga ≡ 249 }
{}

/// The functions of the set of local characters have the codes of RFC 1184, section 2.4.
pub fn funcs()
    ensures synch { func_code func.Synch ≡ 1 }
    ensures brk { func_code func.Brk ≡ 2 }
    ensures ip { func_code func.Ip ≡ 3 }
    ensures ao { func_code func.Ao ≡ 4 }
    ensures ayt { func_code func.Ayt ≡ 5 }
    ensures eor { func_code func.Eor ≡ 6 }
    ensures abort { func_code func.Abort ≡ 7 }
    ensures eof { func_code func.Eof ≡ 8 }
    ensures susp { func_code func.Susp ≡ 9 }
    ensures ec { func_code func.Ec ≡ 10 }
    ensures el { func_code func.El ≡ 11 }
    ensures ew { func_code func.Ew ≡ 12 }
    ensures rp { func_code func.Rp ≡ 13 }
    ensures lnext { func_code func.Lnext ≡ 14 }
    ensures xon { func_code func.Xon ≡ 15 }
    ensures xoff { func_code func.Xoff ≡ 16 }
    ensures forw1 { func_code func.Forw1 ≡ 17 }
    ensures forw2 { func_code func.Forw2 ≡ 18 }
{}

/// The levels of support have the codes of RFC 1184, section 2.4.
pub fn levels()
    ensures no_support { level_code level.NoSupport ≡ 0 }
    ensures cant_change { level_code level.CantChange ≡ 1 }
    ensures value { level_code level.Value ≡ 2 }
    ensures by_default { level_code level.ByDefault ≡ 3 }
{}

/// No code belongs to two names of one table.
pub fn codes_are_distinct()
    ensures verbs { (a b : Verb) → verb_code a ≡ verb_code b → a ≡ b }
    ensures commands { (a b : Command) → command_code a ≡ command_code b → a ≡ b }
    ensures funcs { (a b : Func) → func_code a ≡ func_code b → a ≡ b }
    ensures levels { (a b : Level) → level_code a ≡ level_code b → a ≡ b }
{}

/// Parameters encode at most one payload, and it is the one that the function returns.
pub fn one_payload()
    ensures told { (option : ℕ) (params : List ℕ) (payload : Payload) →
        Says option params payload ↔ (payload_of option params ≡ Some payload) }
    ensures alone { (option : ℕ) (params : List ℕ) (payload other : Payload) →
        Says option params payload → Says option params other → payload ≡ other }
{}

/// Parameters that encode a payload have no fault, and all others have exactly one.
pub fn faults_are_apart()
    ensures option { (option : ℕ) (params : List ℕ) (payload : Payload) →
        Says option params payload → ¬ IsUnknownOption option }
    ensures kind { (option : ℕ) (params : List ℕ) (payload : Payload) →
        Says option params payload → ¬ IsUnknownSub option params }
    ensures length { (option : ℕ) (params : List ℕ) (payload : Payload) →
        Says option params payload → ¬ HasBadLength option params }
    ensures option_kind { (option : ℕ) (params : List ℕ) →
        IsUnknownOption option → ¬ IsUnknownSub option params }
    ensures option_length { (option : ℕ) (params : List ℕ) →
        IsUnknownOption option → ¬ HasBadLength option params }
    ensures kind_length { (option : ℕ) (params : List ℕ) →
        IsUnknownSub option params → ¬ HasBadLength option params }
{}

/// The parameters that are written for a payload encode that payload.
pub fn written_is_said()
    ensures { (payload : Payload) → Fits payload →
        Says (option_of payload) (parameters_of payload) payload }
{}
