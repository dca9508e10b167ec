//! The contents of a certificate.

ghost use Rattle.std.specs.Prelude.{◌≡◌, [], IfSome, IfNone};
ghost use Rattle.jc_cert.specs.Cert.{IsCert};

use crate::in_order::is_cert;
use crate::stated_type::StatedType;
use std::alloc::Global;
use std::marker::Model;

/// The claim of a certificate for one place in a method's code.
#[derive(Debug, Drop)]
pub struct StateRow {
    /// The pc of the place, counted from the first byte of the method's code.
    pub pc: u16,
    /// The types of the locals, at most 65,535.
    pub locals: Vec<StatedType>,
    /// The types of the operands, bottom first, at most 255.
    pub operands: Vec<StatedType>,
}

/// The claims of a certificate for one method.
#[derive(Debug, Drop)]
pub struct MethodStates {
    /// The method, by the offset of its header in the Method component.
    pub offset: u16,
    /// The states at its places, at least one, by strictly ascending pc.
    pub states: Vec<StateRow>,
}

/// A certificate: rows of methods, by strictly ascending offset.
#[derive(Debug, Drop)]
pub struct Cert {
    methods: Vec<MethodStates>,
}

impl Model for Cert {
    ghost use Rattle.std.specs.Prelude.{List};
    ghost use Rattle.jc_cert.specs.Cert.{Row, IsCert, rows};

    ghost Value = { List Row };

    ghost view = { λ c. rows c.methods.items };

    ghost invariant = { λ c. IsCert (rows c.methods.items) };
}

impl Cert {
    ghost use Rattle.jc_cert.specs.Cert.{rows};

    /// The certificate without claims. It takes no memory.
    pub fn empty(alloc: Global) -> Cert
        ensures { result ≡ [] }
    {
        Cert {
            methods: Vec::new(alloc),
        }
    }

    /// The certificate with these rows, if they are in order: rows of methods by strictly ascending offset, each with
    /// at least one state, these by strictly ascending pc, none with more than 65,535 locals or 255 operands, and at
    /// most 65,535 rows and 65,535 states in a row. It takes no memory.
    pub fn new(methods: Vec<MethodStates>) -> Option<Cert>
        ensures made { IfSome result (λ c. c ≡ rows methods.items) }
        ensures none { IfNone result (IsCert (rows methods.items) → ⊥) }
    {
        if !is_cert(&methods) {
            return None;
        }
        Some(Cert::from_rows(methods))
    }

    /// The certificate with these rows.
    pub(crate) fn from_rows(methods: Vec<MethodStates>) -> Cert
        requires { IsCert (rows methods.items) }
        ensures { result ≡ rows methods.items }
    {
        Cert { methods }
    }

    /// The rows, by strictly ascending offset.
    pub fn rows(&self) -> &[MethodStates]
        ensures view { rows result.now ≡ self.now }
        ensures cert { IsCert self.now }
    {
        &self.methods
    }
}
