//! Laws: what is told of literals, arguments and directives is what is wrong with them.
ghost use Rattle.std.specs.Prelude.{ℕ, List, Option, Contains, ◌↔◌};
ghost use Rattle.gq_text.specs.declared.place.Span.{Span};
ghost use Rattle.gq_tree.specs.declared.type_system.DirectiveLocation.{DirectiveLocation};
ghost use Rattle.gq_tree.specs.Plain.{NameOf, Val, InputOf, DirectiveOf};
ghost use Rattle.gq_fault.specs.declared.fault.Fault.{Fault};
ghost use Rattle.gq_types.specs.Entries.{Text, EntryOf};
ghost use Rattle.gq_values.specs.Literals.{Expected};
ghost use Rattle.gq_values.specs.LiteralFaults.{IsLiteralFault};
ghost use Rattle.gq_values.specs.LiteralPlaces.{literal_faults};
ghost use Rattle.gq_values.specs.ArgumentFaults.{IsArgumentFault};
ghost use Rattle.gq_values.specs.ArgumentPlaces.{argument_faults};
ghost use Rattle.gq_values.specs.DirectiveFaults.{IsDirectiveFault};
ghost use Rattle.gq_values.specs.DirectivePlaces.{directive_faults};

/// What is told of a literal is the faults of section 5.6 in it.
pub fn literal_faults_are()
    ensures { (es : List EntryOf) (file : ℕ) (fault : Fault) (reading : Expected) (value : Val Span) →
        Contains (literal_faults es file reading value) fault ↔ IsLiteralFault es file reading value fault }
{}

/// What is told of arguments is the faults of section 5.4 in them, and of section 5.6 in their values.
pub fn argument_faults_are()
    ensures { (es : List EntryOf) (file : ℕ) (name : NameOf Span) (arguments : List (Val Span)) (fault : Fault)
        (definitions : Option (List (InputOf Span))) → Contains (argument_faults es file definitions name arguments) fault ↔
        IsArgumentFault es file definitions name arguments fault }
{}

/// What is told of directives is the faults of section 5.7 in them, and those of their arguments.
pub fn directive_faults_are()
    ensures { (es : List EntryOf) (file : ℕ) (location : DirectiveLocation) (before : List Text) (directives : List (DirectiveOf Span))
        (fault : Fault) → Contains (directive_faults es file location before directives) fault ↔ IsDirectiveFault es file location before directives fault }
{}
