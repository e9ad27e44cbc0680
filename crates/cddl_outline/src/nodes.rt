//! The pieces that each node is made of. A type2 or a group in it is one piece.
//!
//! Boxes and lists are passed on as they are: each place that looks into one costs the check seconds.
use crate::sketch::Sketch;
use tree_nodes::{
    AssignG, AssignT, Entry, GenericArg, Group, GrpChoice, GrpEnt, Leaf, MemberKey, Operator,
    Parameter, Ref, Rule, RuleName, Tree, Type1, Type2, Types, Value,
};

impl<'t> Sketch<'t> {
    pub(crate) fn tree(&mut self, tree: &'t Tree<'_>) {
        self.word("tree: ");
        self.rules(&tree.rules);
    }

    fn rules(&mut self, rules: &'t Vec<Rule>) {
        if let [first, others @ ..] = rules.as_slice() {
            self.rule(first);
            for rule in others {
                self.word("; ");
                self.rule(rule);
            }
        }
    }

    fn rule(&mut self, rule: &'t Rule) {
        match rule {
            Rule::TypeRule {
                name,
                assign,
                types,
            } => {
                self.word("type ");
                self.name(name);
                self.type_sign(assign);
                self.types(types);
            }
            Rule::GroupRule {
                name,
                assign,
                grpent,
            } => {
                self.word("group ");
                self.name(name);
                self.group_sign(assign);
                self.grpent(grpent);
            }
        }
    }

    fn name(&mut self, name: &'t RuleName) {
        match name {
            RuleName::Plain(token) => self.leaf("Plain", *token),
            RuleName::Generic {
                opening,
                parameters,
                closing,
            } => {
                self.token(*opening);
                self.token(parameters.first);
                self.parameters(parameters.others.as_slice());
                self.token(*closing);
            }
        }
    }

    fn parameters(&mut self, parameters: &'t [Parameter]) {
        for parameter in parameters {
            self.token(parameter.comma);
            self.word(" ");
            self.token(parameter.name);
        }
    }

    fn type_sign(&mut self, assign: &AssignT) {
        match assign {
            AssignT::TypeIs(token) => self.sign("TypeIs", *token),
            AssignT::TypeOr(token) => self.sign("TypeOr", *token),
        }
    }

    fn group_sign(&mut self, assign: &AssignG) {
        match assign {
            AssignG::GroupIs(token) => self.sign("GroupIs", *token),
            AssignG::GroupOr(token) => self.sign("GroupOr", *token),
        }
    }

    // A token between two spaces.
    fn sign(&mut self, node: &'static str, token: Leaf) {
        self.word(" ");
        self.leaf(node, token);
        self.word(" ");
    }

    fn types(&mut self, types: &'t Types) {
        self.type1(&types.first);
        for further in &types.others {
            self.sign("", further.sign);
            self.type1(&further.type1);
        }
    }

    fn type1(&mut self, type1: &'t Type1) {
        match type1 {
            Type1::One(type2) => self.type2(type2),
            Type1::Operation {
                left,
                operator,
                right,
            } => {
                self.word("op(");
                self.type2(left);
                self.operator(operator);
                self.type2(right);
                self.word(")");
            }
        }
    }

    fn operator(&mut self, operator: &Operator) {
        match operator {
            Operator::Range(token) => self.sign("Range", *token),
            Operator::RangeBelow(token) => self.sign("RangeBelow", *token),
            Operator::Control(token) => self.sign("Control", *token),
        }
    }

    // What a type2 is made of.
    pub(crate) fn in_type2(&mut self, type2: &'t Type2) {
        match type2 {
            Type2::Literal(value) => self.value(value),
            Type2::Typename(name) => self.reference(name),
            Type2::Parens {
                opening,
                types,
                closing,
            } => {
                self.word("type");
                self.bracketed_type(*opening, types, *closing);
            }
            Type2::MapOf {
                opening,
                group,
                closing,
            }
            | Type2::ArrayOf {
                opening,
                group,
                closing,
            } => self.bracketed_group(*opening, group, *closing),
            Type2::Unwrapped {
                tilde: prefix,
                name,
            }
            | Type2::ChoiceOfName {
                ampersand: prefix,
                name,
            } => self.prefix_and_name(*prefix, name),
            Type2::ChoiceOf {
                ampersand,
                opening,
                group,
                closing,
            } => {
                self.token(*ampersand);
                self.bracketed_group(*opening, group, *closing);
            }
            Type2::Tagged {
                opening,
                types,
                closing,
            }
            | Type2::SimpleBy {
                opening,
                head: types,
                closing,
            } => { self.bracketed_type(*opening, types, *closing) }
            Type2::TaggedBy {
                opening,
                head,
                angle,
                paren,
                types,
                closing,
            } => {
                self.bracketed_type(*opening, head, *angle);
                self.bracketed_type(*paren, types, *closing);
            }
            Type2::Hash(token) => self.leaf("Hash", *token),
        }
    }

    fn value(&mut self, value: &Value) {
        match value {
            Value::Number(token) => self.leaf("Number", *token),
            Value::Text(token) => self.leaf("Text", *token),
            Value::Bytes(token) => self.leaf("Bytes", *token),
        }
    }

    fn reference(&mut self, name: &'t Ref) {
        match name {
            Ref::Name(token) => self.leaf("Name", *token),
            Ref::Applied {
                opening,
                arguments,
                closing,
            } => {
                self.token(*opening);
                self.arguments(arguments);
                self.token(*closing);
            }
        }
    }

    fn arguments(&mut self, arguments: &'t GenericArg) {
        self.type1(&arguments.first);
        for further in &arguments.others {
            self.token(further.sign);
            self.word(" ");
            self.type1(&further.type1);
        }
    }

    fn prefix_and_name(&mut self, prefix: Leaf, name: &'t Ref) {
        self.token(prefix);
        self.reference(name);
    }

    // A type in brackets.
    fn bracketed_type(&mut self, opening: Leaf, types: &'t Box<Types>, closing: Leaf) {
        self.token(opening);
        self.types(types);
        self.token(closing);
    }

    // A group in brackets.
    fn bracketed_group(&mut self, opening: Leaf, group: &'t Group, closing: Leaf) {
        self.token(opening);
        self.group(group);
        self.token(closing);
    }

    // What a group is made of.
    pub(crate) fn in_group(&mut self, group: &'t Group) {
        self.entries(&group.first);
        for choice in &group.others {
            self.choice(choice);
        }
    }

    fn choice(&mut self, choice: &'t GrpChoice) {
        self.sign("", choice.slashes);
        self.entries(&choice.entries);
    }

    fn entries(&mut self, entries: &'t Vec<Entry>) {
        if let [first, others @ ..] = entries.as_slice() {
            self.entry(first);
            for entry in others {
                self.word(" | ");
                self.entry(entry);
            }
        }
    }

    fn entry(&mut self, entry: &'t Entry) {
        self.grpent(&entry.grpent);
        if let Some(comma) = entry.comma {
            self.token(comma);
        }
    }

    fn grpent(&mut self, grpent: &'t GrpEnt) {
        match grpent {
            GrpEnt::Typed { occur, types } => {
                self.optional(*occur);
                self.types(types);
            }
            GrpEnt::Keyed { occur, key, types } => {
                self.optional(*occur);
                self.key(key);
                self.types(types);
            }
            GrpEnt::Grouped {
                occur,
                opening,
                group,
                closing,
            } => {
                self.optional(*occur);
                self.word("group");
                self.bracketed_group(*opening, group, *closing);
            }
        }
    }

    // A token and a space, if there is one.
    fn optional(&mut self, token: Option<Leaf>) {
        if let Some(token) = token {
            self.token(token);
            self.word(" ");
        }
    }

    fn key(&mut self, key: &'t MemberKey) {
        match key {
            MemberKey::TypeKey { type1, cut, arrow } => {
                self.word("key ");
                self.type1(type1);
                self.word(" ");
                self.optional(*cut);
                self.token(*arrow);
            }
            MemberKey::Bareword { name, colon } => {
                self.word("bareword ");
                self.token(*name);
                self.token(*colon);
            }
            MemberKey::ValueKey { value, colon } => {
                self.word("value ");
                self.value(value);
                self.token(*colon);
            }
        }
        self.word(" ");
    }
}
