//! What is said of a phrase depends on its place by the names that occur in it alone.
//!
//! A smaller text lacks statements, declarations and functions of another one, arguments of calls,
//! parameters and results of functions, so that what it keeps stands in other scopes and has other
//! numbers. Each function is a law on two such texts, and holds no code: its contract is the law
//! (`specs/Laws`), over the definitions of `specs/Agreement` and `specs/Thinning`, and those of
//! projection on other numbers.
#![tactic(auto)]

ghost use Rattle.c_scope_laws.specs.Laws.{AmountsAgree, ArgsAgree, BodiesStay, BodiesThin, ExprsAgree, InitialisersDrop, InitsAgree, LabelsAgree, OperandsAgree, ProgramsThin, RulesAgree, SimpleTreesAgree, SwitchTypesAgree, TargetsAgree, ThinnerKeepsRules, ThinnerProgram, ThinnerText, TreesKeepNames, WholeIsClosed, WholeStays, WrittenStays};

/// A law: an expression is the same operand at two places that agree on its names.
pub fn operands_agree()
    ensures { OperandsAgree }
{}

/// A law: the tree of an expression at two places that agree on its names is the same but for the
/// numbers of variables.
pub fn exprs_agree()
    ensures { ExprsAgree }
{}

/// A law: the tree of an initialiser at two places that agree on its names is the same but for the
/// numbers of variables.
pub fn inits_agree()
    ensures { InitsAgree }
{}

/// A law: the tree of a target at two places that agree on its names is the same but for the numbers of
/// variables; one that declares has the next number.
pub fn targets_agree()
    ensures { TargetsAgree }
{}

/// A law: the trees of arguments at two places that agree on their names are the same but for the numbers
/// of variables.
pub fn args_agree()
    ensures { ArgsAgree }
{}

/// A law: the tree of an allocation's amount at two places that agree on its names is the same but for the
/// numbers of variables.
pub fn amounts_agree()
    ensures { AmountsAgree }
{}

/// A law: the tree of a label at two places that agree on its names is the same but for the numbers of
/// variables.
pub fn labels_agree()
    ensures { LabelsAgree }
{}

/// A law: a switch has the same type at two places that agree on the names of its test.
pub fn switch_types_agree()
    ensures { SwitchTypesAgree }
{}

/// A law: the tree of a statement without parts is the same but for numbers at two places that agree
/// on its names.
pub fn simple_trees_agree()
    ensures { SimpleTreesAgree }
{}

/// A law: a phrase breaks each rule that is broken by what stands for it at a place of the other
/// text that agrees on its names, where heads of functions and calls lose the same parameters, and a
/// function loses its result only with all that uses it.
pub fn rules_agree()
    ensures { RulesAgree }
{}

/// A law: a declaration keeps its type where its initialiser is dropped, if a length that its list
/// gave is written as a constant.
pub fn initialisers_drop()
    ensures { InitialisersDrop }
{}

/// A law: where no length of a type is left to a list, the type is written as it stands, however many
/// items the list has.
pub fn written_stays()
    ensures { WrittenStays }
{}

/// A law: what stays of a text that keeps all rules keeps all rules, where what it names stays too,
/// calls keep the arguments of the parameters that stay, and functions whose result is used keep it.
pub fn thinner_keeps_rules()
    ensures { ThinnerKeepsRules }
{}

/// A law: what stays of a list of statements has the tree that stays of its tree.
pub fn bodies_thin()
    ensures { BodiesThin }
{}

/// A law: the program of what stays of a text is what stays of the program of the text, where the
/// parameters of definitions have names.
pub fn programs_thin()
    ensures { ProgramsThin }
{}

/// A law: where the tree of an expression names kept variables alone, what the expression names is
/// kept.
pub fn trees_keep_names()
    ensures { TreesKeepNames }
{}

/// A law: where all is kept, a text without empty blocks is what stays of it.
pub fn whole_stays()
    ensures { WholeStays }
{}

/// A law: what is made of a list of statements, where this is kept, is what stays of it, if what it
/// needs is met.
pub fn bodies_stay()
    ensures { BodiesStay }
{}

/// A law: the thinner text of a text is what stays of it, where all that is kept has what it names
/// and what it stands in.
pub fn thinner_text()
    ensures { ThinnerText }
{}

/// A law: where all is kept, all that this needs is met, whatever the text is.
pub fn whole_is_closed()
    ensures { WholeIsClosed }
{}

/// A law: where all that is kept has what it names and what it stands in, the thinner text of a text that
/// keeps all rules keeps them too, and its program is what stays of the program of the text.
pub fn thinner_program()
    ensures { ThinnerProgram }
{}
