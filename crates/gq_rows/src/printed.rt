//! A document in one line: each name with where its token begins, and the span of each part that has one.
use crate::telling::Telling;
use gq_text::Span;
use gq_tree::{
    Argument, Definition, Directive, Document, Field, FieldDefinition, InlineFragment,
    InputValueDefinition, Literal, Name, OperationKind, Selection, SelectionSet, TypeBody, TypeRef,
    TypeSystemDefinition, Value, VariableDefinition,
};

/// Tells the definitions, each with a semicolon behind it.
pub fn put_document(out: &mut Telling, document: &Document) {
    for definition in &document.definitions {
        put_definition(out, definition);
        out.put(";");
    }
}

fn put_name(out: &mut Telling, name: &Name) {
    out.put(name.text.as_str());
    out.put("@");
    out.put_number(name.span.start);
}

fn put_span(out: &mut Telling, span: Span) {
    out.put_span(span.start, span.end);
}

fn put_literal(out: &mut Telling, kind: &str, literal: &Literal) {
    out.put(kind);
    out.put(" ");
    out.put(literal.text.as_str());
    put_span(out, literal.span);
}

fn put_word(out: &mut Telling, word: &str, span: Span) {
    out.put(word);
    put_span(out, span);
}

fn put_variable(out: &mut Telling, name: &Name, span: Span) {
    out.put("$");
    put_name(out, name);
    put_span(out, span);
}

#[cycle(printed_value)]
fn put_value(out: &mut Telling, value: &Value) {
    match value {
        Value::Variable(variable) => put_variable(out, &variable.name, variable.span),
        Value::Int(literal) => put_literal(out, "int", literal),
        Value::Float(literal) => put_literal(out, "float", literal),
        Value::String(literal) => put_literal(out, "string", literal),
        Value::Boolean { value, span } => {
            put_word(out, if *value { "true" } else { "false" }, *span)
        }
        Value::Null { span } => put_word(out, "null", *span),
        Value::Enum(name) => {
            out.put("enum ");
            put_name(out, name)
        }
        Value::List { items, span } => {
            out.put("[");
            for item in items {
                out.put(" ");
                put_value(out, item);
            }
            put_word(out, " ]", *span)
        }
        Value::Object { fields, span } => {
            out.put("{");
            for field in fields {
                out.put(" ");
                put_name(out, &field.name);
                out.put(":");
                put_value(out, &field.value);
            }
            put_word(out, " }", *span)
        }
    }
}

fn put_arguments(out: &mut Telling, arguments: &[Argument]) {
    if arguments.is_empty() {
        return;
    }
    out.put("(");
    for argument in arguments {
        out.put(" ");
        put_name(out, &argument.name);
        out.put(":");
        put_value(out, &argument.value);
    }
    out.put(" )");
}

fn put_directives(out: &mut Telling, directives: &[Directive]) {
    for directive in directives {
        out.put(" @");
        put_name(out, &directive.name);
        put_arguments(out, &directive.arguments);
        put_span(out, directive.span);
    }
}

fn put_type(out: &mut Telling, type_ref: &TypeRef) {
    match type_ref {
        TypeRef::Named(name) => put_name(out, name),
        TypeRef::List(item) => {
            out.put("[");
            put_type(out, item);
            out.put("]");
        }
        TypeRef::NonNull(inner) => {
            put_type(out, inner);
            out.put("!");
        }
    }
}

fn put_variables(out: &mut Telling, variables: &[VariableDefinition]) {
    if variables.is_empty() {
        return;
    }
    out.put("(");
    for one in variables {
        out.put(" ");
        put_variable(out, &one.variable.name, one.variable.span);
        out.put(":");
        put_type(out, &one.type_ref);
        if let Some(default) = &one.default {
            out.put("=");
            put_value(out, default);
        }
        put_directives(out, &one.directives);
    }
    out.put(" )");
}

#[cycle(printed_selection)]
fn put_selection(out: &mut Telling, selection: &Selection) {
    match selection {
        Selection::Field(field) => put_field(out, field),
        Selection::Spread(spread) => {
            out.put("...");
            put_name(out, &spread.name);
            put_directives(out, &spread.directives);
            put_span(out, spread.span)
        }
        Selection::Inline(inline) => put_inline(out, inline),
    }
}

#[cycle(printed_selection)]
fn put_field(out: &mut Telling, field: &Field) {
    if let Some(alias) = &field.alias {
        put_name(out, alias);
        out.put(":");
    }
    put_name(out, &field.name);
    put_arguments(out, &field.arguments);
    put_directives(out, &field.directives);
    put_span(out, field.span);
    match &field.set {
        Some(set) => put_set(out, set),
        None => {}
    }
}

#[cycle(printed_selection)]
fn put_inline(out: &mut Telling, inline: &InlineFragment) {
    out.put("...");
    if let Some(on) = &inline.on {
        out.put("on ");
        put_name(out, on);
    }
    put_directives(out, &inline.directives);
    put_span(out, inline.span);
    put_set(out, &inline.set)
}

#[cycle(printed_selection)]
fn put_set(out: &mut Telling, set: &SelectionSet) {
    put_span(out, set.span);
    out.put("{");
    for selection in &set.items {
        out.put(" ");
        put_selection(out, selection);
    }
    out.put(" }");
}

fn kind_word(kind: OperationKind) -> &'static str {
    match kind {
        OperationKind::Query => "query",
        OperationKind::Mutation => "mutation",
        OperationKind::Subscription => "subscription",
    }
}

fn put_definition(out: &mut Telling, definition: &Definition) {
    match definition {
        Definition::Operation(operation) => {
            put_word(out, kind_word(operation.kind), operation.span);
            if let Some(name) = &operation.name {
                put_name(out, name);
            }
            put_variables(out, &operation.variables);
            put_directives(out, &operation.directives);
            put_set(out, &operation.set)
        }
        Definition::Fragment(fragment) => {
            put_word(out, "fragment", fragment.span);
            put_name(out, &fragment.name);
            out.put(" on ");
            put_name(out, &fragment.on);
            put_directives(out, &fragment.directives);
            put_set(out, &fragment.set)
        }
        Definition::TypeSystem(definition) => put_type_system(out, definition),
    }
}

fn put_description(out: &mut Telling, description: &Option<Literal>) {
    match description {
        Some(literal) => put_literal(out, " string", literal),
        None => {}
    }
}

fn put_type_system(out: &mut Telling, definition: &TypeSystemDefinition) {
    match definition {
        TypeSystemDefinition::Schema(schema) => {
            out.put(if schema.extends { "extend " } else { "" });
            put_word(out, "schema", schema.span);
            put_description(out, &schema.description);
            put_directives(out, &schema.directives);
            for root in &schema.roots {
                out.put(" ");
                out.put(kind_word(root.kind));
                out.put(":");
                put_name(out, &root.name);
            }
        }
        TypeSystemDefinition::Type(one) => {
            out.put(if one.extends { "extend " } else { "" });
            put_word(out, body_word(&one.body), one.span);
            put_description(out, &one.description);
            put_name(out, &one.name);
            put_directives(out, &one.directives);
            put_body(out, &one.body)
        }
        TypeSystemDefinition::Directive(directive) => {
            put_word(out, "directive", directive.span);
            put_description(out, &directive.description);
            put_name(out, &directive.name);
            put_inputs(out, &directive.arguments);
            out.put(if directive.repeatable { " again" } else { "" });
            for location in &directive.locations {
                out.put(" | ");
                out.put_debug(location);
            }
        }
    }
}

fn body_word(body: &TypeBody) -> &'static str {
    match body {
        TypeBody::Scalar => "scalar",
        TypeBody::Object(_) => "type",
        TypeBody::Interface(_) => "interface",
        TypeBody::Union(_) => "union",
        TypeBody::Enum(_) => "enum",
        TypeBody::InputObject(_) => "input",
    }
}

fn put_body(out: &mut Telling, body: &TypeBody) {
    match body {
        TypeBody::Scalar => {}
        TypeBody::Object(parts) | TypeBody::Interface(parts) => {
            put_names(out, " & ", &parts.interfaces);
            put_fields(out, &parts.fields)
        }
        TypeBody::Union(members) => put_names(out, " | ", members),
        TypeBody::Enum(values) => {
            for value in values {
                out.put(" ");
                put_name(out, &value.name);
                put_description(out, &value.description);
                put_directives(out, &value.directives);
            }
        }
        TypeBody::InputObject(fields) => put_inputs(out, fields),
    }
}

fn put_names(out: &mut Telling, between: &str, names: &[Name]) {
    for name in names {
        out.put(between);
        put_name(out, name);
    }
}

fn put_fields(out: &mut Telling, fields: &[FieldDefinition]) {
    for field in fields {
        out.put(" ");
        put_name(out, &field.name);
        put_description(out, &field.description);
        put_inputs(out, &field.arguments);
        out.put(":");
        put_type(out, &field.type_ref);
        put_directives(out, &field.directives);
    }
}

fn put_inputs(out: &mut Telling, inputs: &[InputValueDefinition]) {
    if inputs.is_empty() {
        return;
    }
    out.put("(");
    for input in inputs {
        out.put(" ");
        put_name(out, &input.name);
        put_description(out, &input.description);
        out.put(":");
        put_type(out, &input.type_ref);
        if let Some(default) = &input.default {
            out.put("=");
            put_value(out, default);
        }
        put_directives(out, &input.directives);
    }
    out.put(" )");
}
