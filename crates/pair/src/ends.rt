// What both ends of the link have. The terminal is the Central, the head the Peripheral.
use machine::Role;

#[derive(Clone, Copy)]
pub(crate) struct Ends<T> {
    pub terminal: T,
    pub head: T,
}

impl<T> Ends<T> {
    pub(crate) fn get(&self, role: Role) -> &T {
        match role {
            Role::Central => &self.terminal,
            Role::Peripheral => &self.head,
        }
    }

    pub(crate) fn get_mut(&mut self, role: Role) -> &mut T {
        match role {
            Role::Central => &mut self.terminal,
            Role::Peripheral => &mut self.head,
        }
    }
}

// The other end.
pub(crate) fn peer(role: Role) -> Role {
    match role {
        Role::Central => Role::Peripheral,
        Role::Peripheral => Role::Central,
    }
}

pub(crate) fn end_name(role: Role) -> &'static str {
    match role {
        Role::Central => "terminal",
        Role::Peripheral => "head",
    }
}
